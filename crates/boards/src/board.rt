// A board, held by value as its size and a fixed array of 256 cell bytes: copied as a snapshot, and handed back by each operation.
ghost use Rattle.std.specs.Prelude.{◌≡◌, ◌<◌, ◌&&◌, not, get_or, length};
ghost use Rattle.rules.specs.Sets.{single, only, without};
ghost use Rattle.rules.specs.Boards.{solved, newly};
ghost use Rattle.boards.specs.Board.{board_of, Sized, SameSize, with_cells, with_cell};

use cells::{CellNo, Colour};

// w times h cells, each a set of colours, row by row from the start of the array.
#[derive(Clone, Copy)]
pub struct Board {
    pub w: usize,
    pub h: usize,
    pub cells: [u8; 256],
}

impl Board {
    // A cell's set; past the array there is no colour.
    pub fn cell(&self, c: CellNo) -> u8
        ensures { result ≡ get_or self.now.cells c.0 0 }
    {
        self.cells.get(usize::from(c.0)).copied().unwrap_or(0)
    }

    // The cell gets this set; past the array there is none to get it.
    fn with_cell(mut self, c: CellNo, s: u8) -> Board
        ensures { result ≡ with_cell self c.0 s }
    {
        let i = usize::from(c.0);
        if i < self.cells.len() {
            self.cells[i] = s;
        }
        self
    }

    // The cell gets one colour.
    pub fn set(self, c: CellNo, x: Colour) -> Board
        requires { x.0 < 8 }
        ensures { result ≡ with_cell self c.0 (only x.0) }
    {
        self.with_cell(c, cells::only(x))
    }

    // The cell loses a colour.
    pub fn remove(self, c: CellNo, x: Colour) -> Board
        requires { x.0 < 8 }
        ensures { result ≡ with_cell self c.0 (without (get_or self.cells c.0 0) x.0) }
    {
        self.with_cell(c, cells::without(self.cell(c), x))
    }

    // The board as it was saved.
    pub fn restore(self, saved: Board) -> Board
        ensures { result ≡ with_cells self saved.cells }
    {
        let cells = saved.cells;
        Board { cells, ..self }
    }

    // Whether all cells are solved.
    pub fn is_solved_full(self) -> bool
        requires { Sized self }
        ensures { result ≡ solved (board_of self) }
    {
        for &s in &self.cells[..self.w * self.h] {
            if !cells::is_solved(s) {
                return false;
            }
        }
        true
    }
}

// Whether a cell is newly solved: its set was a and is b.
pub fn is_new(a: u8, b: u8) -> bool
    ensures { result ≡ (not (single a) && single b) }
{
    !cells::is_solved(a) && cells::is_solved(b)
}

// How many cells are unsolved at the start and solved at the end.
pub fn newly_solved(start: Board, end: Board) -> u16
    requires { Sized start × SameSize start end }
    ensures { result ≡ length (newly (board_of start) (board_of end)) }
{
    let n = start.w * start.h;
    let mut count = 0;
    for (a, b) in start.cells[..n].iter().zip(&end.cells[..n]) {
        count += u16::from(is_new(*a, *b));
    }
    count
}
