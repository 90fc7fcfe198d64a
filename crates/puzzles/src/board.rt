// The cells that a caller hands over, as a board by value, and the board's cells given back.
ghost use Rattle.std.specs.Prelude.{◌≡◌, ◌*◌, ◌≤◌, length};
ghost use Rattle.rules.specs.Answers.{board};
ghost use Rattle.boards.specs.Board.{board_of, Sized};

use boards::Board;
use lines::all_proper;

// Whether there are as many cells as a board of this size has, and each may be given.
pub fn cells_allowed(k: usize, w: usize, h: usize, cells: &[u8]) -> bool
    requires { (k ≤ 7) × (w ≤ 16) × (h ≤ 16) }
    ensures { result ≡ board k (w * h) cells.now }
{
    cells.len() == w * h && all_proper(k, cells)
}

// The board of these cells.
pub fn board_of(w: usize, h: usize, cells: &[u8]) -> Board
    requires { (1 ≤ w) × (w ≤ 16) × (1 ≤ h) × (h ≤ 16) × (length cells.now ≡ w * h) }
    ensures { (result.w ≡ w) × (result.h ≡ h) × (board_of result ≡ cells.now) }
{
    let mut sets = [0; 256];
    sets[..cells.len()].copy_from_slice(cells);
    Board { w, h, cells: sets }
}

// The caller's cells get the board's sets.
pub fn give_back(b: Board, cells: &mut [u8])
    requires { Sized b × (length cells.old ≡ b.w * b.h) }
    ensures { cells.new ≡ board_of b }
{
    cells.copy_from_slice(&b.cells[..b.w * b.h]);
}
