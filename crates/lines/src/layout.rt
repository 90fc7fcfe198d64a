// Reading what a caller hands over: the layout of a line's clue, and cells.
ghost use Rattle.std.specs.Prelude.{◌≡◌, ◌≤◌, length, drop};
ghost use Rattle.rules.specs.Lists.{every};
ghost use Rattle.rules.specs.Sets.{proper};
ghost use Rattle.rules.specs.Clues.{within, allowed, read_line, read_pairs};
ghost use Rattle.lines.specs.Layout.{line_read};

use rules::LARGEST_SIDE;

// Whether `n` is one of `low` to `high`.
pub fn within(low: usize, high: usize, n: usize) -> bool
    ensures { result ≡ within low high n }
{
    (low..=high).contains(&n)
}

// A block that the layout allows, with `k` colours.
fn allowed(k: usize, colour: u8, cells: u8) -> bool
    ensures { result ≡ allowed k (record { colour = colour; cells = cells }) }
{
    within(1, k, usize::from(colour)) && within(1, LARGEST_SIDE, usize::from(cells))
}

// `n` pairs, from `at` on: before which byte they end, or none where they break the layout.
fn read_pairs(k: usize, bytes: &[u8], at: usize, n: usize) -> Option<usize>
    requires { (at ≤ length bytes.now) × (n ≤ 16) }
    ensures { result ≡ line_read (length bytes.now) (read_pairs k n (drop at bytes.now)) }
{
    let end = at + 2 * n;
    let (pairs, _) = bytes.get(at..end)?.as_chunks::<2>();
    pairs
        .iter()
        .all(|pair| allowed(k, pair[0], pair[1]))
        .then_some(end)
}

// The layout of one line, from `at` on: before which byte the line ends, or none where it is broken.
#[tactic(auto, using(crate::proofs::Reading::line_missing, crate::proofs::Reading::line_long, crate::proofs::Reading::line_pairs))]
pub fn read_line(k: usize, bytes: &[u8], at: usize) -> Option<usize>
    ensures { result ≡ line_read (length bytes.now) (read_line k (drop at bytes.now)) }
{
    let n = usize::from(*bytes.get(at)?);
    if n > LARGEST_SIDE {
        return None;
    }
    read_pairs(k, bytes, at + 1, n)
}

// A cell that may be given: some bit is set, and none above `k`.
#[tactic(auto, unfolding(rules::specs::Sets::proper))]
fn proper(k: usize, s: u8) -> bool
    requires { k ≤ 7 }
    ensures { result ≡ proper k s }
{
    (1..1 << (k + 1)).contains(&u32::from(s))
}

// Whether every cell may be given.
pub fn all_proper(k: usize, cells: &[u8]) -> bool
    requires { k ≤ 7 }
    ensures { result ≡ every (proper k) cells.now }
{
    cells.iter().all(|&s| proper(k, s))
}
