// A node between two guesses, and what comes before and after each of them. A step of a node ends it, or it goes on.
ghost use Rattle.std.specs.Prelude.{◌≡◌, true, List, ℕ, ◌*◌, ◌^◌, ◌≤◌, ◌<◌};
ghost use Rattle.rules.specs.Sets.{has};
ghost use Rattle.rules.specs.Boards.{at};
ghost use Rattle.rules.specs.Answers.{most_waiting};
ghost use Rattle.lines.specs.declared.machine.Machine.{Machine};
ghost use Rattle.boards.specs.Board.{board_of, Sized};
ghost use Rattle.backtracking.specs.Setting.{Ready};
ghost use Rattle.backtracking.specs.Comes.{ProbesNode, and_node, then_node, Begins, Ends, Refills};

use crate::ended::{Ended, ask};
use crate::store::check_and_store;
use crate::task::Task;
use boards::Board;
use guesses::{Guess, Guesses};
use probing::run_unsolved;
use runs::{Limits, Stats};
use std::ops::ControlFlow;
use std::ops::ControlFlow::{Break, Continue};

// The board, the waiting guesses, whether this node itself has run probing, for each cell the colours guessed here that were not dead, and the counts of the run.
#[derive(Clone, Copy)]
pub struct Node {
    pub board: Board,
    pub guesses: Guesses,
    pub probed: bool,
    pub made: [u8; 256],
    pub stats: Stats,
}

// The node's own probing, from a fresh starting queue: a contradiction makes it dead, and a solved board is stored and ends it.
pub fn probe_node(
    board: Board,
    list: &mut [u8],
    stats: Stats,
    task: Task,
) -> ControlFlow<Ended, (Board, Stats)>
    requires { Ready board task.machines.now list.old task.limits stats × (stats.steps ≤ 2 ^ 40) }
    ensures { ProbesNode board task.entry.machines.now list.old task.entry.limits stats result list.new }
{
    let probed = run_unsolved(board, task.machines);
    let stats = stats.stepped(probed.steps);
    let Some((end, _)) = probed.end else {
        return Break(Ended {
            dead: true,
            board,
            stats,
        });
    };
    if !end.is_solved_full() {
        return Continue((end, stats));
    }
    let kept = check_and_store(end, list, stats, task);
    Break(Ended {
        dead: kept.is_none(),
        board: end,
        stats: kept.unwrap_or(stats),
    })
}

// Whether a guess is of a cell of the board, and of a colour that the cell has.
fn is_open(board: Board, guess: Guess) -> bool
    requires { Sized board }
    ensures { (result ≡ has (at (board_of board) guess.cell.0) guess.colour.0) × (result ≡ true → (guess.cell.0 < board.w * board.h) × (guess.colour.0 < 8)) }
{
    let set = board.cell(guess.cell);
    if board.w * board.h <= usize::from(guess.cell.0) || 8 <= guess.colour.0 {
        return false;
    }
    cells::has(set, guess.colour)
}

// Limits are asked. A guess whose colour is gone is skipped. A cell with one colour left is never guessed: skipped if this node itself has already run probing, otherwise the node is probed. The node goes on with the guess that is to be tried, if there is one.
pub fn before_guess(
    node: &mut Node,
    list: &mut [u8],
    task: Task,
    depth: usize,
) -> ControlFlow<Ended, Option<Guess>>
    requires { Ready node.old.board task.machines.now list.old task.limits node.old.stats × (node.old.guesses.head < most_waiting) }
    ensures { Begins node.old task.entry.machines.now list.old task.entry.limits depth (and_node result node.new) list.new }
{
    ask(node.board, node.stats, task.limits, depth)?;
    let guess = node.guesses.first();
    node.guesses = node.guesses.rest();
    if !is_open(node.board, guess) {
        return Continue(None);
    }
    if !cells::is_solved(node.board.cell(guess.cell)) {
        return Continue(Some(guess));
    }
    if node.probed {
        return Continue(None);
    }
    let (board, stats) = probe_node(node.board, list, node.stats, task)?;
    node.board = board;
    node.probed = true;
    node.stats = stats;
    Continue(None)
}

// After a dead guess its colour is removed (the last one: node dead), the node is probed, and the cell's other colours come to wait. Another guess is noted as made.
pub fn after_guess(
    node: &mut Node,
    guess: Guess,
    dead: bool,
    list: &mut [u8],
    task: Task,
) -> ControlFlow<Ended>
    requires { Ready node.old.board task.machines.now list.old task.limits node.old.stats × (node.old.guesses.head ≤ most_waiting) × (guess.cell.0 < node.old.board.w * node.old.board.h) × (guess.colour.0 < 8) × (node.old.stats.steps ≤ 2 ^ 40) }
    ensures { Ends node.old guess.cell.0 guess.colour.0 dead task.entry.machines.now list.old task.entry.limits (then_node result node.new) list.new }
{
    if !dead {
        node.made = guesses::mark(node.made, guess.cell, guess.colour);
        return Continue(());
    }
    let board = node.board.remove(guess.cell, guess.colour);
    if board.cell(guess.cell) == 0 {
        return Break(Ended {
            dead: true,
            board,
            stats: node.stats,
        });
    }
    let (board, stats) = probe_node(board, list, node.stats, task)?;
    let set = board.cell(guess.cell);
    node.board = board;
    node.guesses = node.guesses.others(guess.cell, guess.colour, set);
    node.probed = true;
    node.stats = stats;
    Continue(())
}

// M3: when guesses run out limits are asked; if the board is unsolved and no cell is closed, the first unsolved cell gives new guesses. Otherwise the node ends, not dead.
pub fn refill(node: &mut Node, limits: Limits, depth: usize) -> ControlFlow<Ended>
    requires { Sized node.old.board × (node.old.stats.grids ≤ limits.grids) × (node.old.guesses.head ≤ most_waiting) }
    ensures { (machines : List Machine) (list : List ℕ) → Refills node.old machines list limits depth (then_node result node.new) }
{
    ask(node.board, node.stats, limits, depth)?;
    if node.board.is_solved_full() || guesses::any_closed(node.board, node.made) {
        return Break(Ended {
            dead: false,
            board: node.board,
            stats: node.stats,
        });
    }
    node.guesses = guesses::first_unsolved(node.board);
    Continue(())
}
