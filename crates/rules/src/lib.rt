// The sizes that the rules name, and what is refused, for the crates above.
#![tactic(auto)]

ghost use Rattle.std.specs.Prelude.{◌≡◌};
ghost use Rattle.rules.specs.Refusals.{refusal_number};

pub const LARGEST_SIDE: usize = 16;

pub const MOST_COLOURS: usize = 3;

// A byte has room for this many colours, blank among them.
pub const COLOURS: usize = 8;

// At most 1,024 guesses wait at a node: four colours in each of 256 cells.
pub const MOST_WAITING: usize = LARGEST_SIDE * LARGEST_SIDE * (MOST_COLOURS + 1);

pub const MOST_GRIDS: usize = 128;

pub const MOST_DEPTH: usize = 15;

pub const MOST_BUDGET: u64 = 1_000_000_000;

// Why a question is refused, with the number that its caller is given.
#[derive(Clone, Copy, Debug, PartialEq, Eq)]
pub enum Refusal {
    // Not from 1 to 16 cells wide and high.
    Sides = 11,
    // Not from 1 to 3 colours besides blank.
    Colours = 12,
    // More grids, more depth or more budget than there may be.
    Limits = 13,
    // Clues that break the layout.
    Clues = 14,
    // Another count of cells, a cell with no colour, or a colour above the last.
    Cells = 15,
    // A list with no room for the grids.
    List = 16,
    // Counts that no cell has.
    Rate = 19,
    // A grid that is not in the list.
    Grid = 20,
}

impl Refusal {
    // The number that its caller is given.
    pub fn number(self) -> u8
        ensures { result ≡ refusal_number self }
    {
        self as u8
    }
}
