// Runs of probing.
ghost use Rattle.std.specs.Prelude.{◌≡◌, ◌*◌, ◌<◌};
ghost use Rattle.rules.specs.Sets.{colours};
ghost use Rattle.rules.specs.Boards.{remove_all};
ghost use Rattle.rules.specs.Probing.{start_queue};
ghost use Rattle.boards.specs.Board.{board_of, Sized, SameSize};
ghost use Rattle.boards.specs.Table.{Playable};
ghost use Rattle.queues.specs.Entries.{queue_of};
ghost use Rattle.probing.specs.Probing.{propagate_point, cut_colours, Pushes, Probes};

use crate::neighbours::push_both;
use crate::probe::probe;
use crate::start::unsolved_cells;
use boards::{Board, LINES};
use cells::{CellNo, Colour};
use lines::Machine;
use notes::Notes;
use queues::Queue;
use rules::COLOURS;

// The end of a run: how many colours were assumed; the board and the last round's notes, or none at a contradiction.
#[derive(Clone, Copy)]
pub struct Probed {
    pub steps: u64,
    pub end: Option<(Board, Notes)>,
}

// The cell is propagated, and neighbours are pushed: the board and the queue, or none at a contradiction.
pub fn propagate_point(
    board: Board,
    c: CellNo,
    queue: Queue,
    machines: &[Machine; LINES],
) -> Option<(Board, Queue)>
    requires { Sized board × Playable board.w board.h machines.now × (c.0 < board.w * board.h) }
    ensures { Pushes board queue machines.now (λ z. propagate_point z (board_of board) c.0 (queue_of queue)) result }
{
    let end = board.propagate(c, machines)?;
    Some((end, push_both(board, end, queue, c)))
}

// The cell loses the colours of a set, ascending.
fn remove_all(mut board: Board, c: CellNo, bad: u8) -> Board
    requires { c.0 < board.w * board.h }
    ensures { SameSize board result × (board_of result ≡ remove_all (board_of board) c.0 (colours bad)) }
{
    for x in 0..COLOURS {
        let x = Colour(x as u8);
        if cells::has(bad, x) {
            board = board.remove(c, x);
        }
    }
    board
}

// The contradicting colours are removed, and the cell is propagated. Removing the last colour is a contradiction.
fn cut(
    board: Board,
    c: CellNo,
    bad: u8,
    queue: Queue,
    machines: &[Machine; LINES],
) -> Option<(Board, Queue)>
    requires { Sized board × Playable board.w board.h machines.now × (c.0 < board.w * board.h) }
    ensures { Pushes board queue machines.now (λ z. cut_colours z (board_of board) c.0 (colours bad) (queue_of queue)) result }
{
    let b = remove_all(board, c, bad);
    if b.cell(c) == 0 {
        return None;
    }
    propagate_point(b, c, queue, machines)
}

// A run of probing, with a queue for the board's cells. A turn of the loop is a cell popped; colours that contradict start a new round.
pub fn run(mut board: Board, mut queue: Queue, machines: &[Machine; LINES]) -> Probed
    requires { Sized board × Playable board.w board.h machines.now × (queue.n ≡ board.w * board.h) }
    ensures { Probes board (λ _. queue_of queue) machines.now result }
{
    let n = board.w * board.h;
    let mut notes = Notes::none(n);
    let mut steps = 0;
    if board.is_solved_full() {
        return Probed {
            steps,
            end: Some((board, notes)),
        };
    }
    while let Some((c, rest)) = queue.pop() {
        let impact = probe(board, c, machines);
        steps += impact.steps;
        if impact.bad == 0 {
            queue = rest;
            notes = notes.note(c, board.cell(c), impact.counts);
        } else {
            let Some((left, pushed)) = cut(board, c, impact.bad, rest, machines) else {
                return Probed { steps, end: None };
            };
            board = left;
            queue = pushed;
            notes = Notes::none(n);
            if board.is_solved_full() {
                return Probed {
                    steps,
                    end: Some((board, notes)),
                };
            }
        }
    }
    Probed {
        steps,
        end: Some((board, notes)),
    }
}

// A run of probing from a fresh starting queue.
pub fn run_unsolved(board: Board, machines: &[Machine; LINES]) -> Probed
    requires { Sized board × Playable board.w board.h machines.now }
    ensures { Probes board (λ z. start_queue z (board_of board)) machines.now result }
{
    run(board, unsolved_cells(board), machines)
}
