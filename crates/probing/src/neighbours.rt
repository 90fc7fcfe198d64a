// A cell's unsolved neighbours: finding them, and pushing them.
ghost use Rattle.std.specs.Prelude.{◌≡◌, map, ◌*◌, ◌<◌};
ghost use Rattle.rules.specs.Lists.{joined};
ghost use Rattle.rules.specs.Boards.{Puzzle, newly, beside, around};
ghost use Rattle.rules.specs.Floats.{float};
ghost use Rattle.rules.specs.Probing.{push_around, push_both};
ghost use Rattle.cells.specs.Numbers.{cell_numbers};
ghost use Rattle.boards.specs.Board.{board_of, Sized, SameSize};
ghost use Rattle.queues.specs.Entries.{queue_of, Holds};
ghost use Rattle.probing.specs.Neighbours.{OfSize, those};

use arrayvec::ArrayVec;
use boards::Board;
use cells::CellNo;
use queues::Queue;
use rules::LARGEST_SIDE;

// The priorities with which neighbours are pushed.
const NEIGHBOUR_OF_NEWLY_SOLVED: f64 = 10.0;

const NEIGHBOUR_OF_CONTRADICTION: f64 = 20.0;

// At most four neighbours of each of at most 256 cells.
const MOST_FOUND: usize = 4 * LARGEST_SIDE * LARGEST_SIDE;

// The cells above a cell, to the left, to the right and below, each where there is one.
fn beside(b: &Board, c: CellNo) -> [Option<CellNo>; 4]
    requires { Sized b.now × (c.0 < b.now.w * b.now.h) }
    ensures { (z : Puzzle) → OfSize z b.now → joined (map those result) ≡ beside z c.0 }
{
    let w = b.w as u16;
    let h = b.h as u16;
    let c = c.0;
    [
        (w <= c).then(|| CellNo(c - w)),
        (0 < c % w).then(|| CellNo(c - 1)),
        (c % w + 1 < w).then(|| CellNo(c + 1)),
        (c / w + 1 < h).then(|| CellNo(c + w)),
    ]
}

// A cell's unsolved neighbours; a missing neighbour is not unsolved.
pub fn around(b: &Board, c: CellNo) -> ArrayVec<CellNo, 4>
    requires { Sized b.now × (c.0 < b.now.w * b.now.h) }
    ensures { (z : Puzzle) → OfSize z b.now → cell_numbers result.items ≡ around z (board_of b.now) c.0 }
{
    let mut found = ArrayVec::new();
    for n in beside(b, c) {
        if let Some(n) = n
            && !cells::is_solved(b.cell(n))
        {
            found.push(n);
        }
    }
    found
}

// The unsolved neighbours of the cells that are newly solved from start to end are pushed, all at once.
fn push_new(start: &Board, end: &Board, queue: Queue) -> Queue
    requires { Sized start.now × SameSize start.now end.now }
    ensures { (z : Puzzle) → OfSize z end.now → Holds queue.n (push_around z (board_of end.now) (newly (board_of start.now) (board_of end.now)) (float 10) (queue_of queue)) result }
{
    let mut found: ArrayVec<CellNo, MOST_FOUND> = ArrayVec::new();
    for i in 0..end.w * end.h {
        if boards::is_new(start.cells[i], end.cells[i]) {
            for n in around(end, CellNo(i as u16)).iter() {
                found.push(*n);
            }
        }
    }
    queue.push_all(&found, NEIGHBOUR_OF_NEWLY_SOLVED)
}

// The unsolved neighbours of newly solved cells are pushed, then those of the cell.
pub fn push_both(start: Board, end: Board, queue: Queue, c: CellNo) -> Queue
    requires { Sized start × SameSize start end × (c.0 < start.w * start.h) }
    ensures { (z : Puzzle) → OfSize z end → Holds queue.n (push_both z (board_of end) c.0 (newly (board_of start) (board_of end)) (queue_of queue)) result }
{
    let pushed = push_new(&start, &end, queue);
    pushed.push_all(&around(&end, c), NEIGHBOUR_OF_CONTRADICTION)
}
