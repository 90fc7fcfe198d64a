// Reducing one line that a caller hands over, with its clue.
ghost use Rattle.std.specs.Prelude.{◌≡◌, ◌≤◌, MatchResult};
ghost use Rattle.rules.specs.Clues.{clue_of};
ghost use Rattle.rules.specs.Refusals.{refusal_number};
ghost use Rattle.rules.specs.Answers.{line_cells?, line, reduce_line};
ghost use Rattle.rules.specs.Promises.{LinePromised};
ghost use Rattle.lines.specs.Layout.{given};
ghost use Rattle.lines.specs.Answering.{reduction_number, line_number, Accepted};

use crate::layout::{all_proper, read_line, within};
use crate::machine::machine_of;
use crate::reduction::reduce_by;
use rules::{LARGEST_SIDE, MOST_COLOURS, Refusal};

// What comes of a line that is accepted.
#[derive(Clone, Copy, Debug, PartialEq, Eq)]
pub enum Reduction {
    // The cells have the reduced sets.
    Reduced = 1,
    // No line is arranged, and the cells are as they were.
    Contradiction = 3,
}

impl Reduction {
    // The number that its caller is given.
    pub fn number(self) -> u8
        ensures { result ≡ reduction_number self }
    {
        self as u8
    }
}

// The number that the caller of a line is given: what came of it, or why it is refused.
pub fn line_number(answer: Result<Reduction, Refusal>) -> u8
    ensures { result ≡ line_number answer }
{
    match answer {
        Ok(reduction) => reduction.number(),
        Err(refusal) => refusal.number(),
    }
}

// Whether the bytes are the clue of one line, and nothing more.
fn clue_given(k: usize, clue: &[u8]) -> bool
    ensures { result ≡ given (clue_of k clue.now) }
{
    read_line(k, clue, 0).is_some_and(|end| end == clue.len())
}

// Whether there are 1 to 16 cells that may be given.
fn cells_given(k: usize, cells: &[u8]) -> bool
    requires { k ≤ 7 }
    ensures { result ≡ line_cells? k cells.now }
{
    within(1, LARGEST_SIDE, cells.len()) && all_proper(k, cells)
}

// Whether a line is accepted, or why it is refused.
#[tactic(auto, unfolding(rules::specs::Answers::reduce_line))]
fn accept(k: usize, clue: &[u8], cells: &[u8]) -> Result<(), Refusal>
    ensures { MatchResult result (λ _. Accepted k clue.now cells.now) (λ why. line (refusal_number why) cells.now ≡ reduce_line k clue.now cells.now) }
{
    if !within(1, MOST_COLOURS, k) {
        return Err(Refusal::Colours);
    }
    if !clue_given(k, clue) {
        return Err(Refusal::Clues);
    }
    if !cells_given(k, cells) {
        return Err(Refusal::Cells);
    }
    Ok(())
}

// What comes of a line, or why it is refused: for its colours, its clue or its cells, in this order. After anything but `Reduced` the cells are as they were.
// The number of it and every cell are those of the rules, and they mean what `Reduces` says: the colours that are possible, or that no line is arranged.
pub fn reduce_line(k: usize, clue: &[u8], cells: &mut [u8]) -> Result<Reduction, Refusal>
    ensures answered { line (line_number result) cells.new ≡ reduce_line k clue.now cells.old }
    ensures promised { LinePromised k clue.now cells.old (line (line_number result) cells.new) }
{
    accept(k, clue, cells)?;
    if reduce_by(machine_of(&clue[1..]), cells) {
        Ok(Reduction::Reduced)
    } else {
        Ok(Reduction::Contradiction)
    }
}
