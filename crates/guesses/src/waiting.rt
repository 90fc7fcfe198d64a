// The guesses that wait at a node, held by value: the next one is taken, and others come to wait before it.
ghost use Rattle.std.specs.Prelude.{◌≡◌, [], ◌∷◌, ◌≤◌, ◌<◌};
ghost use Rattle.rules.specs.Sets.{colours};
ghost use Rattle.rules.specs.Guesses.{guess};
ghost use Rattle.rules.specs.Search.{among, others};
ghost use Rattle.rules.specs.Answers.{most_waiting};
ghost use Rattle.guesses.specs.Waiting.{guess_of, at_place, next, guesses_of, Waiting, IfRoom, Rest, with_other};

use cells::{CellNo, Colour};
use rules::MOST_WAITING;

// A cell and a colour for it.
#[derive(Clone, Copy, Debug, PartialEq, Eq)]
pub struct Guess {
    pub cell: CellNo,
    pub colour: Colour,
}

// Guesses that wait: those from place `head` on, the next one first.
#[derive(Clone, Copy)]
pub struct Guesses {
    pub head: usize,
    pub cells: [u16; MOST_WAITING],
    pub colours: [u8; MOST_WAITING],
}

impl Guesses {
    // None waits: zeroed arrays.
    pub fn none() -> Guesses
        ensures { Waiting [] result }
    {
        let cells = [0; MOST_WAITING];
        let colours = [0; MOST_WAITING];
        Guesses {
            head: MOST_WAITING,
            cells,
            colours,
        }
    }

    // The guess at a place.
    fn at(&self, i: usize) -> Guess
        requires { i < most_waiting }
        ensures { result ≡ at_place self.now i }
    {
        Guess {
            cell: CellNo(self.cells[i]),
            colour: Colour(self.colours[i]),
        }
    }

    // The next guess.
    pub fn first(self) -> Guess
        requires { self.head < most_waiting }
        ensures { guess_of result ≡ next self }
    {
        self.at(self.head)
    }

    // The guesses after the next one.
    pub fn rest(self) -> Guesses
        requires { self.head < most_waiting }
        ensures { Rest self result }
    {
        Guesses {
            head: self.head + 1,
            ..self
        }
    }

    // A guess comes to wait before the others, in place. Where there is no room it does not, which never happens in a search.
    pub(crate) fn wait(&mut self, c: CellNo, x: Colour)
        requires { self.old.head ≤ most_waiting }
        ensures { IfRoom (guess c.0 x.0 ∷ guesses_of self.old) self.new }
    {
        if 0 < self.head {
            let i = self.head - 1;
            self.cells[i] = c.0;
            self.colours[i] = x.0;
            self.head = i;
        }
    }

    // A guess comes to wait before the others, where there is room.
    pub fn push(mut self, c: CellNo, x: Colour) -> Guesses
        requires { self.head ≤ most_waiting }
        ensures { IfRoom (guess c.0 x.0 ∷ guesses_of self) result }
    {
        self.wait(c, x);
        self
    }

    // Whether a guess waits.
    pub fn waits(&self, c: CellNo, x: Colour) -> bool
        ensures { result ≡ among (guess c.0 x.0) (guesses_of self.now) }
    {
        let guess = Guess { cell: c, colour: x };
        (self.head..MOST_WAITING).any(|i| guess == self.at(i))
    }

    // One colour of a set comes to wait, unless it is the colour x or waits already.
    fn other(&mut self, c: CellNo, x: Colour, set: u8, y: Colour)
        requires { (self.old.head ≤ most_waiting) × (y.0 < 8) }
        ensures { IfRoom (with_other c.0 x.0 set y.0 (guesses_of self.old)) self.new }
    {
        if cells::has(set, y) && y != x && !self.waits(c, y) {
            self.wait(c, y);
        }
    }

    // The cell's other colours not already waiting, ascending, each before the guesses that wait: so the highest goes first.
    pub fn others(mut self, c: CellNo, x: Colour, set: u8) -> Guesses
        requires { self.head ≤ most_waiting }
        ensures { IfRoom (others c.0 x.0 (colours set) (guesses_of self)) result }
    {
        for y in 0..8 {
            self.other(c, x, set, Colour(y));
        }
        self
    }
}
