// A solved board is checked, and stored if it meets its clues.
ghost use Rattle.backtracking.specs.Parts.{checked_in, kept};
ghost use Rattle.backtracking.specs.Setting.{Ready};
ghost use Rattle.backtracking.specs.Comes.{Stores};

use crate::task::Task;
use boards::Board;
use runs::Stats;

// M1: the final check runs, and a board that fails it is not stored: then there are no counts to go on with, and they are as they were.
pub fn check_and_store(board: Board, list: &mut [u8], stats: Stats, task: Task) -> Option<Stats>
    requires { Ready board task.machines.now list.old task.limits stats }
    ensures { Stores board task.entry.machines.now list.old task.entry.limits stats result list.new (λ z. checked_in z) }
{
    if !board.check(task.machines) {
        return None;
    }
    Some(runs::add_solution(board, list, stats, task.limits.grids))
}

// A solved board is checked and stored; an unsolved one is let be.
pub fn keep(board: Board, list: &mut [u8], stats: Stats, task: Task) -> Option<Stats>
    requires { Ready board task.machines.now list.old task.limits stats }
    ensures { Stores board task.entry.machines.now list.old task.entry.limits stats result list.new (λ z. kept z) }
{
    if board.is_solved_full() {
        return check_and_store(board, list, stats, task);
    }
    Some(stats)
}
