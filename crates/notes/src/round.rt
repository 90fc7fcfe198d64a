// A round's notes: for each cell that was popped, how many cells each of its colours newly solves.
ghost use Rattle.std.specs.Prelude.{◌≡◌, ◌≤◌, ◌<◌, set, replicate};
ghost use Rattle.std.proofs.Math.Option.{none, some};
ghost use Rattle.rules.specs.Guesses.{largest, smallest, notes_at};

use cells::{CellNo, Colour};
use rules::COLOURS;

// What was noted of a cell: its set, and how many cells each colour of it newly solves.
#[derive(Clone, Copy)]
pub struct Note {
    pub set: u8,
    pub counts: [u8; COLOURS],
}

// What was noted of each of n cells, at most 256, if it was popped.
#[derive(Clone, Copy)]
pub struct Notes {
    pub n: usize,
    pub notes: [Option<Note>; 256],
    pub ghost within: { n ≤ 256 },
}

impl Note {
    ghost use Rattle.notes.specs.Round.{note_of, solves};

    // How many cells a colour newly solves, if the cell has it.
    fn solves(&self, x: usize) -> Option<u8>
        requires { x < 8 }
        ensures { result ≡ solves self.now x }
    {
        cells::has(self.set, Colour(x as u8)).then_some(self.counts[x])
    }

    // The largest number of newly solved cells over the colours.
    pub(crate) fn most(&self) -> u8
        ensures { result ≡ largest (note_of self.now) }
    {
        (0..COLOURS)
            .filter_map(|x| self.solves(x))
            .max()
            .unwrap_or(0)
    }

    // The smallest.
    pub(crate) fn least(&self) -> u8
        ensures { result ≡ smallest (note_of self.now) }
    {
        (0..COLOURS)
            .filter_map(|x| self.solves(x))
            .min()
            .unwrap_or(0)
    }
}

impl Notes {
    ghost use Rattle.notes.specs.Round.{each_of, notes_of, noted, Says};

    // A new round's notes: nothing is noted of the n cells.
    pub fn none(n: usize) -> Notes
        requires { n ≤ 256 }
        ensures { Says n (replicate n none) result }
    {
        let notes = [None; 256];
        Notes { n, notes }
    }

    // A cell is noted: its set, and how many cells each colour newly solves. A cell past the last is not noted.
    pub fn note(mut self, c: CellNo, s: u8, counts: [u8; COLOURS]) -> Notes
        ensures { Says self.n (set (notes_of self) c.0 (some (each_of s counts))) result }
    {
        let i = c.0 as usize;
        if i < self.n {
            self.notes[i] = Some(Note { set: s, counts });
        }
        self
    }

    // What was noted of a cell, if it was popped.
    pub fn at(&self, c: CellNo) -> Option<Note>
        ensures { noted result ≡ notes_at (notes_of self.now) c.0 }
    {
        let i = c.0 as usize;
        if i < self.n { self.notes[i] } else { None }
    }
}
