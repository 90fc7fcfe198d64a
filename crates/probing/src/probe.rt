// Assuming colours.
ghost use Rattle.std.specs.Prelude.{◌≡◌, ◌*◌, ◌<◌};
ghost use Rattle.rules.specs.Boards.{Puzzle};
ghost use Rattle.rules.specs.Options.{opt_of};
ghost use Rattle.rules.specs.Probing.{assume};
ghost use Rattle.boards.specs.Board.{board_of, Sized};
ghost use Rattle.boards.specs.Table.{Table, Playable};
ghost use Rattle.probing.specs.Probing.{with_outcome, Impacts};

use boards::{Board, LINES};
use cells::{CellNo, Colour};
use lines::Machine;
use rules::COLOURS;

// What assuming each colour of a cell comes to: the set of those that contradict, how many cells each other colour newly solves, and how many colours were assumed.
#[derive(Clone, Copy)]
pub struct Impact {
    pub bad: u8,
    pub counts: [u8; COLOURS],
    pub steps: u64,
}

// A colour assumed: set it, and propagate; how many cells are newly solved, or none at a contradiction. The board that it is assumed on stays as it is.
fn assume(board: Board, c: CellNo, x: Colour, machines: &[Machine; LINES]) -> Option<u8>
    requires { Sized board × Playable board.w board.h machines.now × (c.0 < board.w * board.h) × (x.0 < 8) }
    ensures { (z : Puzzle) → Table z board.w board.h machines.now → opt_of result ≡ assume z (board_of board) c.0 x.0 }
{
    let b = board.set(c, x);
    let end = b.propagate(c, machines)?;
    Some(boards::newly_solved(b, end) as u8)
}

impl Impact {
    // One colour more is assumed, with this outcome.
    fn with(mut self, x: Colour, outcome: Option<u8>) -> Impact
        requires { (x.0 < 8) × (self.steps < 8) }
        ensures { result ≡ with_outcome x.0 (opt_of outcome) self }
    {
        self.steps += 1;
        match outcome {
            Some(n) => self.counts[x.0 as usize] = n,
            None => self.bad = cells::including(self.bad, x),
        }
        self
    }
}

// Every colour of the cell's set is assumed in turn, ascending.
pub fn probe(board: Board, c: CellNo, machines: &[Machine; LINES]) -> Impact
    requires { Sized board × Playable board.w board.h machines.now × (c.0 < board.w * board.h) }
    ensures { Impacts board c.0 machines.now result }
{
    let mut impact = Impact {
        bad: 0,
        counts: [0; COLOURS],
        steps: 0,
    };
    for x in 0..COLOURS {
        let x = Colour(x as u8);
        if cells::has(board.cell(c), x) {
            impact = impact.with(x, assume(board, c, x, machines));
        }
    }
    impact
}
