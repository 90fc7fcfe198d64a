// An accepted puzzle is searched.
ghost use Rattle.std.specs.Prelude.{◌≡◌, List, ℕ, ◌*◌, length};
ghost use Rattle.boards.specs.Board.{Sized};
ghost use Rattle.boards.specs.Table.{Playable};
ghost use Rattle.belutharin.specs.Answers.{Checks, Given, Searches};

use crate::answers::{Answer, FRESH, Outcome};
use backtracking::{Task, search};
use boards::{Board, LINES};
use guesses::choose_directions;
use lines::Machine;
use probing::run_unsolved;
use puzzles::give_back;

// M1: a board that is solved before the search passes the final check, and is the answer; or there is a dead end.
fn checked(b: Board, cells: &mut [u8], machines: &[Machine; LINES]) -> Answer
    requires { Sized b × Playable b.w b.h machines.now × (length cells.old ≡ b.w * b.h) }
    ensures { (list : List ℕ) → Checks b machines.now cells.old list result cells.new list }
{
    if b.check(machines) {
        give_back(b, cells);
        return Answer::at_once(Outcome::Solved);
    }
    Answer::at_once(Outcome::DeadEnd)
}

// The whole run: a first run of probing, and the search at depth 0 with zeros. At a dead end all is untouched.
pub fn searched(given: Board, cells: &mut [u8], list: &mut [u8], task: Task) -> Answer
    requires { Given given task.machines.now cells.old list.old task.limits }
    ensures { Searches given task.entry.machines.now task.entry.limits cells.old list.old result cells.new list.new }
{
    if given.is_solved_full() {
        return checked(given, cells, task.machines);
    }
    let Some((b, notes)) = run_unsolved(given, task.machines).end else {
        return Answer::at_once(Outcome::DeadEnd);
    };
    if b.is_solved_full() {
        return checked(b, cells, task.machines);
    }
    let guesses = choose_directions(b, notes);
    let ended = search(b, guesses, list, FRESH, task, task.limits.depth + 1);
    if ended.dead {
        return Answer {
            outcome: Outcome::DeadEnd,
            stats: ended.stats,
        };
    }
    give_back(ended.board, cells);
    Answer {
        outcome: Outcome::Listed,
        stats: ended.stats,
    }
}
