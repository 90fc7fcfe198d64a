// Choosing guesses from the notes of a run of probing: cells by rate, and in a cell the colour that solves most first.
ghost use Rattle.std.specs.Prelude.{◌≡◌, ◌++◌, map, ◌≤◌, ◌*◌};
ghost use Rattle.rules.specs.Floats.{higher};
ghost use Rattle.rules.specs.Queues.{in_order};
ghost use Rattle.rules.specs.Guesses.{guess, cell_order, colour_order, choose};
ghost use Rattle.rules.specs.Answers.{most_waiting};
ghost use Rattle.cells.specs.Numbers.{cell_numbers};
ghost use Rattle.queues.specs.Entries.{queue_of};
ghost use Rattle.boards.specs.Board.{board_of, Sized};
ghost use Rattle.notes.specs.Round.{notes_of};
ghost use Rattle.guesses.specs.Waiting.{guesses_of, IfRoom};

use crate::waiting::Guesses;
use arrayvec::ArrayVec;
use boards::Board;
use cells::CellNo;
use notes::Notes;
use queues::Queue;

// The cells that wait in a queue, taken out one after the other.
fn in_order(mut q: Queue) -> ArrayVec<CellNo, 256>
    ensures { cell_numbers result.items ≡ in_order higher (queue_of q) }
{
    let mut order = ArrayVec::new();
    while let Some(c) = q.take() {
        order.push(c);
    }
    order
}

// The noted, unsolved cells of a board, the highest rate first.
fn ranked(b: Board, notes: &Notes) -> ArrayVec<CellNo, 256>
    requires { Sized b × (notes.now.n ≡ b.w * b.h) }
    ensures { cell_numbers result.items ≡ cell_order (board_of b) (notes_of notes.now) }
{
    in_order(notes::cell_order(notes, &b.cells[..b.w * b.h]))
}

// A cell's colours, the one that solves most first, come to wait before the guesses that wait, where there is room.
fn wait_cell(g: &mut Guesses, notes: &Notes, c: CellNo)
    requires { g.old.head ≤ most_waiting }
    ensures { IfRoom (map (guess c.0) (colour_order (notes_of notes.now) c.0) ++ guesses_of g.old) g.new }
{
    let order = notes::colour_order(notes, c);
    for x in order.iter().rev() {
        g.wait(c, *x);
    }
}

// The chosen guesses, first to last.
pub fn choose_directions(b: Board, notes: Notes) -> Guesses
    requires { Sized b × (notes.n ≡ b.w * b.h) }
    ensures { IfRoom (choose (board_of b) (notes_of notes)) result }
{
    let order = ranked(b, &notes);
    let mut g = Guesses::none();
    for c in order.iter().rev() {
        wait_cell(&mut g, &notes, *c);
    }
    g
}
