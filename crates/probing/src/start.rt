// The starting queue: all unsolved cells, each with its priority.
ghost use Rattle.std.specs.Prelude.{◌≡◌, ◌+◌, ◌*◌, ◌<◌};
ghost use Rattle.rules.specs.Boards.{Puzzle, line_cells};
ghost use Rattle.rules.specs.Floats.{solved_of};
ghost use Rattle.rules.specs.Probing.{start_queue};
ghost use Rattle.boards.specs.Board.{board_of, Sized};
ghost use Rattle.queues.specs.Entries.{Holds};
ghost use Rattle.probing.specs.Neighbours.{OfSize};
ghost use Rattle.probing.specs.Start.{SolvedOn, PriorityIs};

use crate::neighbours::around;
use boards::{Board, LINES};
use cells::CellNo;
use queues::Queue;

// How many of line i's cells are solved.
fn solved_on(b: &Board, i: usize) -> u8
    requires { Sized b.now × (i < b.now.h + b.now.w) }
    ensures { (z : Puzzle) → OfSize z b.now → result ≡ solved_of (board_of b.now) (line_cells z i) }
{
    let line = boards::line_of(b.w, b.h, i);
    let mut n: u8 = 0;
    for j in 0..line.len {
        n += u8::from(cells::is_solved(b.cells[line.start + j * line.stride]));
    }
    n
}

// The same for every line, rows before columns.
fn solved_lines(b: &Board) -> [u8; LINES]
    requires { Sized b.now }
    ensures { SolvedOn b.now (b.now.h + b.now.w) result }
{
    let mut solved = [0; LINES];
    for i in 0..b.h + b.w {
        solved[i] = solved_on(b, i);
    }
    solved
}

// A cell's priority; this many cells of its row and of its column are solved.
fn priority_at(b: &Board, c: CellNo, row_solved: u8, column_solved: u8) -> f64
    requires { Sized b.now × (c.0 < b.now.w * b.now.h) }
    ensures { PriorityIs b.now c.0 row_solved column_solved result }
{
    rates::priority(
        around(b, c).len() as u8,
        row_solved,
        b.w as u8,
        column_solved,
        b.h as u8,
    )
}

// All unsolved cells, each with its priority; they come to wait in place, so that the queue is not copied for each.
pub fn unsolved_cells(b: Board) -> Queue
    requires { Sized b }
    ensures { (z : Puzzle) → OfSize z b → Holds (b.w * b.h) (start_queue z (board_of b)) result }
{
    let solved = solved_lines(&b);
    let mut q = Queue::empty(b.w * b.h);
    for i in 0..b.w * b.h {
        if !cells::is_solved(b.cells[i]) {
            let c = CellNo(i as u16);
            let priority = priority_at(&b, c, solved[i / b.w], solved[b.h + i % b.w]);
            q.wait(c, priority);
        }
    }
    q
}
