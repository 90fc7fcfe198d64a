// Storing a grid in the caller's list, unless it is stored already.
ghost use Rattle.std.specs.Prelude.{◌≡◌, ◌+◌, ◌*◌, ◌≤◌, length};
ghost use Rattle.std.proofs.Math.Seq.{paste};
ghost use Rattle.boards.specs.Board.{board_of, Sized};
ghost use Rattle.runs.specs.Stored.{found, Added};

use crate::limits::Stats;
use boards::Board;

// Whether the board is one of the list's first grids.
fn already_found(b: Board, list: &[u8], grids: usize) -> bool
    requires { Sized b × ((grids ≤ 128) × (grids * (b.w * b.h) ≤ length list.now)) }
    ensures { result ≡ found (board_of b) (b.w * b.h) grids list.now }
{
    let n = b.w * b.h;
    for g in 0..grids {
        if b.cells[..n] == list[g * n..(g + 1) * n] {
            return true;
        }
    }
    false
}

// The board's cells go to a place of the list.
fn copy_grid(b: Board, list: &mut [u8], at: usize)
    requires { Sized b × (at + b.w * b.h ≤ length list.old) }
    ensures { list.new ≡ paste list.old at b.cells (b.w * b.h) }
{
    let n = b.w * b.h;
    list[at..at + n].copy_from_slice(&b.cells[..n]);
}

// Storing skips a grid equal to one stored already. It stores none past the most grids, which never happens in a search.
pub fn add_solution(b: Board, list: &mut [u8], s: Stats, most: usize) -> Stats
    requires { Sized b × ((s.grids ≤ most) × ((most ≤ 128) × (most * (b.w * b.h) ≤ length list.old))) }
    ensures { Added (board_of b) (b.w * b.h) most s list.old result list.new }
{
    let n = b.w * b.h;
    if most <= s.grids {
        return s;
    }
    if already_found(b, list, s.grids) {
        return s;
    }
    copy_grid(b, list, s.grids * n);
    Stats {
        grids: s.grids + 1,
        ..s
    }
}
