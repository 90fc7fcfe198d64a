// The counts of a run, and its limits.
ghost use Rattle.std.specs.Prelude.{◌≡◌, ◌+◌, ◌^◌, ◌<◌};
ghost use Rattle.runs.specs.Stats.{limit_met, limit_number, noted, stepped, deeper};

// The most grids, the most depth, and the step budget.
#[derive(Clone, Copy)]
pub struct Limits {
    pub grids: usize,
    pub depth: usize,
    pub budget: u64,
}

// What a run may be limited in.
#[derive(Clone, Copy, Debug, PartialEq, Eq)]
pub enum Limit {
    Grids,
    Steps,
    Depth,
}

// The number by which the first limit met is answered: 0 none, 1 grids, 2 steps, 3 depth.
pub fn limit_number(limit: Option<Limit>) -> u8
    ensures { result ≡ limit_number limit }
{
    match limit {
        None => 0,
        Some(Limit::Grids) => 1,
        Some(Limit::Steps) => 2,
        Some(Limit::Depth) => 3,
    }
}

// Grids stored, steps, deepest, and the first limit met by its number, 0 for none.
#[derive(Clone, Copy)]
pub struct Stats {
    pub grids: usize,
    pub steps: u64,
    pub deepest: usize,
    pub limit: u8,
}

// The limit that is met, asked in this order: grids, steps, depth.
#[tactic(auto, unfolding(crate::specs::Stats::limit_met))]
pub fn limits_reached(s: Stats, l: Limits, depth: usize) -> Option<Limit>
    ensures { result ≡ limit_met s l depth }
{
    if l.grids <= s.grids {
        return Some(Limit::Grids);
    }
    if l.budget <= s.steps {
        return Some(Limit::Steps);
    }
    if l.depth < depth {
        return Some(Limit::Depth);
    }
    None
}

impl Stats {
    // The first limit met is kept, whatever its number.
    pub fn noted(self, m: u8) -> Stats
        ensures { result ≡ noted m self }
    {
        if self.limit == 0 {
            return Stats { limit: m, ..self };
        }
        self
    }

    // More steps.
    pub fn stepped(self, n: u64) -> Stats
        requires { self.steps + n < 2 ^ 64 }
        ensures { result ≡ stepped n self }
    {
        Stats {
            steps: self.steps + n,
            ..self
        }
    }

    // Deepest is raised to depth + 1 if it is lower.
    pub fn deeper(self, depth: usize) -> Stats
        requires { depth + 1 < 2 ^ 64 }
        ensures { result ≡ deeper depth self }
    {
        Stats {
            deepest: self.deepest.max(depth + 1),
            ..self
        }
    }
}
