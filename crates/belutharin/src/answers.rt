// What is given back.
ghost use Rattle.std.specs.Prelude.{◌≡◌};
ghost use Rattle.belutharin.specs.Answers.{outcome_number, at_once, numbers};

use rules::Refusal;
use runs::Stats;

// What comes of a puzzle that is not refused, with the number that its caller is given.
#[derive(Clone, Copy, Debug, PartialEq, Eq)]
pub enum Outcome {
    // The board is the one grid.
    Solved = 1,
    // The list has the stored grids, and the board the deductions.
    Listed = 2,
    // No grid fits.
    DeadEnd = 3,
}

impl Outcome {
    // The number that its caller is given.
    pub fn number(self) -> u8
        ensures { result ≡ outcome_number self }
    {
        self as u8
    }
}

// What comes of a puzzle, and the counts of its run.
#[derive(Clone, Copy)]
pub struct Answer {
    pub outcome: Outcome,
    pub stats: Stats,
}

// The counts of a run that has done nothing.
pub(crate) const FRESH: Stats = Stats {
    grids: 0,
    steps: 0,
    deepest: 0,
    limit: 0,
};

impl Answer {
    // What comes of a puzzle with no search.
    pub(crate) fn at_once(outcome: Outcome) -> Answer
        ensures { result ≡ at_once outcome }
    {
        Answer {
            outcome,
            stats: FRESH,
        }
    }
}

// The five numbers of an answer: 1 solved, 2 listed, 3 dead end, or the number of a refusal; the grids stored, the steps, how deep the search was, and the first limit met: 0 none, 1 grids, 2 steps, 3 depth.
#[derive(Clone, Copy, Debug, PartialEq, Eq)]
pub struct Numbers {
    pub number: u8,
    pub grids: usize,
    pub steps: u64,
    pub deepest: usize,
    pub limit: u8,
}

impl From<Result<Answer, Refusal>> for Numbers {
    ghost from_gives = { λ answer given. given ≡ numbers answer };

    fn from(answer: Result<Answer, Refusal>) -> Numbers {
        match answer {
            Ok(Answer { outcome, stats }) => Numbers {
                number: outcome.number(),
                grids: stats.grids,
                steps: stats.steps,
                deepest: stats.deepest,
                limit: stats.limit,
            },
            Err(refusal) => Numbers {
                number: refusal.number(),
                grids: 0,
                steps: 0,
                deepest: 0,
                limit: 0,
            },
        }
    }
}
