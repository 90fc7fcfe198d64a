// A guess, as far as the search one deeper: setting its colour, and the probing inside it.
ghost use Rattle.std.specs.Prelude.{◌≡◌, ◌*◌, ◌<◌};
ghost use Rattle.rules.specs.Sets.{has};
ghost use Rattle.queues.specs.Entries.{queue_of};
ghost use Rattle.backtracking.specs.Setting.{Ready};
ghost use Rattle.backtracking.specs.Comes.{SetsGuess, ProbesGuess, Enters, GuessStands};

use crate::ended::{Ended, ask};
use crate::store::keep;
use crate::task::Task;
use boards::Board;
use guesses::{Guess, Guesses, choose_directions};
use notes::Notes;
use probing::{push_both, run, unsolved_cells};
use queues::Queue;
use runs::Stats;
use std::ops::ControlFlow;
use std::ops::ControlFlow::{Break, Continue};

// Take the starting queue, set the colour, propagate; if solved, store; push the two kinds of neighbours. The guess is dead, or goes on with the board and the queue to probe with.
fn set_guess(
    board: Board,
    guess: Guess,
    list: &mut [u8],
    stats: Stats,
    task: Task,
) -> ControlFlow<Ended, (Board, Queue, Stats)>
    requires { Ready board task.machines.now list.old task.limits stats × (guess.cell.0 < board.w * board.h) × (guess.colour.0 < 8) × (stats.steps < task.limits.budget) }
    ensures { SetsGuess board guess.cell.0 guess.colour.0 task.entry.machines.now list.old task.entry.limits stats result list.new }
{
    let queue = unsolved_cells(board);
    let stats = stats.stepped(1);
    let dead = Ended {
        dead: true,
        board,
        stats,
    };
    let start = board.set(guess.cell, guess.colour);
    let Some(end) = start.propagate(guess.cell, task.machines) else {
        return Break(dead);
    };
    let Some(kept) = keep(end, list, stats, task) else {
        return Break(dead);
    };
    Continue((end, push_both(start, end, queue, guess.cell), kept))
}

// M2: a board solved by the probing inside a guess is checked and stored at once. The guess is dead, or goes on with the board and the notes.
fn probe_guess(
    board: Board,
    queue: Queue,
    list: &mut [u8],
    stats: Stats,
    task: Task,
) -> ControlFlow<Ended, (Board, Notes, Stats)>
    requires { Ready board task.machines.now list.old task.limits stats × (queue.n ≡ board.w * board.h) × (stats.steps < task.limits.budget) }
    ensures { ProbesGuess board (queue_of queue) task.entry.machines.now list.old task.entry.limits stats result list.new }
{
    let probed = run(board, queue, task.machines);
    let stats = stats.stepped(probed.steps);
    let dead = Ended {
        dead: true,
        board,
        stats,
    };
    let Some((end, notes)) = probed.end else {
        return Break(dead);
    };
    let Some(kept) = keep(end, list, stats, task) else {
        return Break(dead);
    };
    Continue((end, notes, kept))
}

// A guess is set and probed, and limits are asked after each. It ends there, or where its board is solved, or the search is to go one deeper with the guesses chosen.
pub fn enter_guess(
    board: Board,
    guess: Guess,
    list: &mut [u8],
    stats: Stats,
    task: Task,
    depth: usize,
) -> ControlFlow<Ended, (Board, Guesses, Stats)>
    requires { Ready board task.machines.now list.old task.limits stats × (guess.cell.0 < board.w * board.h) × (guess.colour.0 < 8) × (stats.steps < task.limits.budget) × (stats.grids < task.limits.grids) }
    ensures { Enters board guess.cell.0 guess.colour.0 task.entry.machines.now list.old task.entry.limits depth stats result list.new }
{
    let (board, queue, stats) = set_guess(board, guess, &mut *list, stats, task)?;
    ask(board, stats, task.limits, depth)?;
    let (board, notes, stats) = probe_guess(board, queue, &mut *list, stats, task)?;
    ask(board, stats, task.limits, depth)?;
    if board.is_solved_full() {
        return Break(Ended {
            dead: false,
            board,
            stats,
        });
    }
    Continue((board, choose_directions(board, notes), stats))
}
