// When a node's guesses have run out: whether a cell is closed there, and if none is, new guesses from the first unsolved cell.
ghost use Rattle.std.specs.Prelude.{◌≡◌, List, ◌∷◌, map, ◌<◌};
ghost use Rattle.rules.specs.Lists.{every};
ghost use Rattle.rules.specs.Sets.{has, colours};
ghost use Rattle.rules.specs.Guesses.{Guess, guess};
ghost use Rattle.rules.specs.Search.{any_closed, first_unsolved};
ghost use Rattle.boards.specs.Board.{board_of, Sized};
ghost use Rattle.guesses.specs.Waiting.{Waiting};
ghost use Rattle.guesses.specs.Made.{Made};

use crate::waiting::Guesses;
use boards::Board;
use cells::{CellNo, Colour};

// All colours of a set, ascending, as guesses for a cell.
fn colours_of(c: CellNo, s: u8) -> Guesses
    ensures { Waiting (map (guess c.0) (colours s)) result }
{
    let mut g = Guesses::none();
    for y in (0..8).rev() {
        if cells::has(s, Colour(y)) {
            g.wait(c, Colour(y));
        }
    }
    g
}

// All colours, ascending, of the first unsolved cell by row and column.
pub fn first_unsolved(b: Board) -> Guesses
    requires { Sized b }
    ensures { Waiting (first_unsolved (board_of b)) result }
{
    let cells = &b.cells[..b.w * b.h];
    match cells.iter().position(|s| !cells::is_solved(*s)) {
        Some(i) => colours_of(CellNo(i as u16), cells[i]),
        None => Guesses::none(),
    }
}

// Whether every colour of the set s is in the set m.
fn covers(s: u8, m: u8) -> bool
    ensures { result ≡ every (has m) (colours s) }
{
    s & m == s
}

// Whether some cell is closed: each colour it now has was guessed at the node and was not dead. `made` has those colours for each cell.
pub fn any_closed(b: Board, made: [u8; 256]) -> bool
    requires { Sized b }
    ensures { (l : List Guess) → Made made l → result ≡ any_closed (board_of b) l }
{
    let cells = &b.cells[..b.w * b.h];
    cells.iter().zip(&made).any(|(s, m)| covers(*s, *m))
}

// One guess more was made and was not dead.
pub fn mark(mut made: [u8; 256], c: CellNo, x: Colour) -> [u8; 256]
    requires { x.0 < 8 }
    ensures { (l : List Guess) → Made made l → Made result (guess c.0 x.0 ∷ l) }
{
    let i = c.0 as usize;
    if i < 256 {
        made[i] = cells::including(made[i], x);
    }
    made
}
