// The search over any bytes.
ghost use Rattle.std.specs.Prelude.{◌≡◌};
ghost use Rattle.rules.specs.Answers.{solve};
ghost use Rattle.rules.specs.Promises.{Promised};
ghost use Rattle.belutharin.specs.Answers.{asked, answer};

use crate::answers::Answer;
use crate::refusals::{accept_lent, accept_numbers};
use crate::searching::searched;
use backtracking::Task;
use puzzles::{board_of, read_table};
use rules::Refusal;
use runs::Limits;

// The search over a caller's bytes: the sides, how many colours besides blank, the clues, the board's cells and the list that are lent, and the limits.
// The answer, every count and every lent byte are those of the rules. They keep the promise of `Promised`: what may be said of the fitting grids after a dead end, a solved board or a list.
pub fn solve(
    w: usize,
    h: usize,
    k: usize,
    clues: &[u8],
    cells: &mut [u8],
    list: &mut [u8],
    most_grids: usize,
    most_depth: usize,
    budget: u64,
) -> Result<Answer, Refusal>
    ensures answered { answer result cells.new list.new ≡ solve (asked w h k most_grids most_depth budget clues.now cells.old list.old) }
    ensures promised { Promised (asked w h k most_grids most_depth budget clues.now cells.old list.old) (answer result cells.new list.new) }
{
    let limits = Limits {
        grids: most_grids,
        depth: most_depth,
        budget,
    };
    accept_numbers(w, h, k, limits)?;
    // The table is kept where it was read to: it is not small, and not copied.
    let table = read_table(k, w, h, clues);
    let Some(machines) = &table else {
        return Err(Refusal::Clues);
    };
    accept_lent(k, w, h, most_grids, cells, list)?;
    let task = Task { machines, limits };
    Ok(searched(board_of(w, h, cells), cells, list, task))
}
