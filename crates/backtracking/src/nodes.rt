// The search itself: `search` goes through a node's guesses, `try_direction` tries one of them and searches one deeper.
ghost use Rattle.std.specs.Prelude.{◌≡◌, ◌+◌, ◌*◌, ◌≤◌, ◌<◌};
ghost use Rattle.rules.specs.Answers.{most_waiting};
ghost use Rattle.backtracking.specs.Setting.{Ready};
ghost use Rattle.backtracking.specs.Comes.{then_node, NodeStands, SearchStands, GuessStands, Searches, Passes, Turns, Tries};

use crate::ended::{Ended, ask};
use crate::guess::enter_guess;
use crate::node::{Node, after_guess, before_guess, refill};
use crate::task::Task;
use boards::Board;
use guesses::{Guess, Guesses};
use rules::MOST_WAITING;
use runs::Stats;
use std::ops::ControlFlow;
use std::ops::ControlFlow::{Break, Continue};

// The search at a node with its chosen guesses; `left` is how much deeper it may go, so that its depth is one more than the most depth, less that.
#[cycle(search_search_mutable_try_direction_turn)]
pub fn search(
    board: Board,
    waiting: Guesses,
    list: &mut [u8],
    stats: Stats,
    task: Task,
    left: usize,
) -> Ended
    requires { Ready board task.machines.now list.old task.limits stats × (waiting.head ≤ most_waiting) × (left ≤ task.limits.depth + 1) × SearchStands board waiting task.machines.now list.old stats }
    ensures { Searches board waiting task.entry.machines.now list.old task.entry.limits left stats result list.new }
{
    let depth = task.limits.depth + 1 - left;
    if let Break(end) = ask(board, stats, task.limits, depth) {
        return end;
    }
    let mut node = Node {
        board,
        guesses: waiting,
        probed: false,
        made: [0; 256],
        stats: stats.deeper(depth),
    };
    if let Break(end) = search_mutable(&mut node, &mut *list, task, left) {
        return end;
    }
    loop {
        if let Break(end) = refill(&mut node, task.limits, depth) {
            return end;
        }
        if let Break(end) = search_mutable(&mut node, &mut *list, task, left) {
            return end;
        }
    }
}

// A pass over the guesses that wait; the node goes on when they have run out.
#[cycle(search_search_mutable_try_direction_turn)]
fn search_mutable(node: &mut Node, list: &mut [u8], task: Task, left: usize) -> ControlFlow<Ended>
    requires { Ready node.old.board task.machines.now list.old task.limits node.old.stats × (node.old.guesses.head ≤ most_waiting) × (1 ≤ left) × (left ≤ task.limits.depth + 1) × NodeStands node.old task.machines.now list.old }
    ensures { Passes node.old task.entry.machines.now list.old task.entry.limits left (then_node result node.new) list.new }
{
    while node.guesses.head < MOST_WAITING {
        turn(&mut *node, &mut *list, task, left)?;
    }
    Continue(())
}

// The next guess: limits are asked before it, and the board is restored after it.
#[cycle(search_search_mutable_try_direction_turn)]
fn turn(node: &mut Node, list: &mut [u8], task: Task, left: usize) -> ControlFlow<Ended>
    requires { Ready node.old.board task.machines.now list.old task.limits node.old.stats × (node.old.guesses.head < most_waiting) × (1 ≤ left) × (left ≤ task.limits.depth + 1) × NodeStands node.old task.machines.now list.old }
    ensures { Turns node.old task.entry.machines.now list.old task.entry.limits left (then_node result node.new) list.new }
{
    let depth = task.limits.depth + 1 - left;
    let next = before_guess(&mut *node, &mut *list, task, depth)?;
    let Some(guess) = next else {
        return Continue(());
    };
    let saved = node.board;
    let tried = try_direction(saved, guess, &mut *list, node.stats, task, left - 1);
    node.board = tried.board.restore(saved);
    node.stats = tried.stats;
    after_guess(node, guess, tried.dead, list, task)
}

// One guess, at its own depth.
#[cycle(search_search_mutable_try_direction_turn)]
pub fn try_direction(
    board: Board,
    guess: Guess,
    list: &mut [u8],
    stats: Stats,
    task: Task,
    left: usize,
) -> Ended
    requires { Ready board task.machines.now list.old task.limits stats × (guess.cell.0 < board.w * board.h) × (guess.colour.0 < 8) × (stats.steps < task.limits.budget) × (stats.grids < task.limits.grids) × (left ≤ task.limits.depth) × GuessStands board guess.cell.0 guess.colour.0 task.machines.now list.old stats }
    ensures { Tries board guess.cell.0 guess.colour.0 task.entry.machines.now list.old task.entry.limits left stats result list.new }
{
    let depth = task.limits.depth + 1 - left;
    match enter_guess(board, guess, &mut *list, stats, task, depth) {
        Continue((board, waiting, stats)) => search(board, waiting, list, stats, task, left),
        Break(end) => end,
    }
}
