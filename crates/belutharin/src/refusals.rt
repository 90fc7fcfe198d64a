// The tests of an input, but for that of its clue bytes, in their order; the first that fails refuses it.
ghost use Rattle.std.specs.Prelude.{◌≡◌, ◌&&◌, ◌*◌, ◌≤◌, leb, length};
ghost use Rattle.rules.specs.Answers.{side, colour_count, limits, board};
ghost use Rattle.belutharin.specs.Refusals.{accept_numbers, accept_lent};

use lines::within;
use puzzles::cells_allowed;
use rules::{LARGEST_SIDE, MOST_BUDGET, MOST_COLOURS, MOST_DEPTH, MOST_GRIDS, Refusal};
use runs::Limits;

// Whether both sides are legal.
fn sides_given(w: usize, h: usize) -> bool
    ensures { result ≡ side w && side h }
{
    within(1, LARGEST_SIDE, w) && within(1, LARGEST_SIDE, h)
}

// Whether the limits are legal.
fn limits_given(l: Limits) -> bool
    ensures { result ≡ limits l.grids l.depth l.budget }
{
    l.grids <= MOST_GRIDS && l.depth <= MOST_DEPTH && l.budget <= MOST_BUDGET
}

// The tests before that of the clue bytes: of the sides, the colours and the limits.
pub fn accept_numbers(w: usize, h: usize, k: usize, l: Limits) -> Result<(), Refusal>
    ensures { result ≡ accept_numbers (side w && side h) (colour_count k) (limits l.grids l.depth l.budget) }
{
    if !sides_given(w, h) {
        return Err(Refusal::Sides);
    }
    if !within(1, MOST_COLOURS, k) {
        return Err(Refusal::Colours);
    }
    if !limits_given(l) {
        return Err(Refusal::Limits);
    }
    Ok(())
}

// The tests after it: of the cells, and of the room of the list.
pub fn accept_lent(
    k: usize,
    w: usize,
    h: usize,
    grids: usize,
    cells: &[u8],
    list: &[u8],
) -> Result<(), Refusal>
    requires { (k ≤ 7) × (w ≤ 16) × (h ≤ 16) × (grids ≤ 128) }
    ensures { result ≡ accept_lent (board k (w * h) cells.now) (leb (grids * (w * h)) (length list.now)) }
{
    if !cells_allowed(k, w, h, cells) {
        return Err(Refusal::Cells);
    }
    if list.len() < grids * (w * h) {
        return Err(Refusal::List);
    }
    Ok(())
}
