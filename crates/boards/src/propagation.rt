// Propagating from a cell, and the final check.
ghost use Rattle.std.specs.Prelude.{◌≡◌, ◌↔◌, ◌+◌, ◌*◌, ◌≤◌, ◌<◌, IsTrue};
ghost use Rattle.rules.specs.Lines.{fits};
ghost use Rattle.rules.specs.Boards.{Puzzle, line_of, clue_at};
ghost use Rattle.boards.specs.Board.{board_of, Sized};
ghost use Rattle.boards.specs.Table.{Table, Playable};
ghost use Rattle.boards.specs.Propagation.{Narrows, cell_lines, crossed, Propagates, Passes};

use crate::board::Board;
use crate::line::{LINES, differing, gather, line_of, scatter};
use cells::CellNo;
use lines::Machine;

impl Board {
    // The lines that the cells lost by line i make pending: columns by a row, rows by a column.
    fn woken(&self, i: usize, lost: u32) -> u32
        requires { Sized self.now × (lost < 65536) }
        ensures { result ≡ crossed self.now.h i lost }
    {
        if i < self.h { lost << self.h } else { lost }
    }

    // A cell's row and column.
    fn first_pending(&self, c: CellNo) -> u32
        requires { Sized self.now × (c.0 < self.now.w * self.now.h) }
        ensures { result ≡ cell_lines self.now.w self.now.h c.0 }
    {
        let c = usize::from(c.0);
        (1 << (c / self.w)) | (1 << (self.h + c % self.w))
    }

    // Line i is reduced, and bit j of what is answered says that its cell j lost a colour; or none, at a contradiction, and the board is as it was.
    fn reduce_on(&mut self, machines: &[Machine; LINES], i: usize) -> Option<u32>
        requires { Sized self.old × (i < self.old.h + self.old.w) }
        ensures { Narrows self.old i machines.now self.new result }
    {
        let line = line_of(self.w, self.h, i);
        let old = gather(&self.cells, line);
        let mut sets = old;
        if !lines::reduce_by(machines[i], &mut sets[..line.len]) {
            return None;
        }
        scatter(&mut self.cells, line, sets);
        Some(differing(old, sets, line.len))
    }

    // Whether some line is arranged in the sets of line i; the board is read, and not copied to be reduced.
    fn line_fits(&self, machines: &[Machine; LINES], i: usize) -> bool
        requires { Sized self.now × (i < self.now.h + self.now.w) }
        ensures { (z : Puzzle) → Table z self.now.w self.now.h machines.now → result ≡ fits (clue_at z i) (line_of z (board_of self.now) i) }
    {
        let line = line_of(self.w, self.h, i);
        let mut sets = gather(&self.cells, line);
        lines::reduce_by(machines[i], &mut sets[..line.len])
    }

    // Propagating from a cell: the board at the end, or none at a contradiction.
    pub fn propagate(mut self, c: CellNo, machines: &[Machine; LINES]) -> Option<Board>
        requires { Sized self × Playable self.w self.h machines.now × (c.0 < self.w * self.h) }
        ensures { Propagates self c.0 machines.now result }
    {
        let mut pending = self.first_pending(c);
        while pending != 0 {
            let i = pending.trailing_zeros() as usize;
            let lost = self.reduce_on(machines, i)?;
            pending = (pending & !(1 << i)) | self.woken(i, lost);
        }
        Some(self)
    }

    // The final check: all rows and columns of a solved board meet their clues. It goes from the last line to the first, and ends at one that does not.
    pub fn check(self, machines: &[Machine; LINES]) -> bool
        requires { Sized self × Playable self.w self.h machines.now }
        ensures { Passes self machines.now result }
    {
        for i in (0..self.h + self.w).rev() {
            if !self.line_fits(machines, i) {
                return false;
            }
        }
        true
    }
}
