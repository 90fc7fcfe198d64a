// A row or a column: where its cells stand, read out of the board and written back.
ghost use Rattle.std.specs.Prelude.{◌≡◌, map, ◌+◌, ◌≤◌, ◌<◌, get_or, length, take};
ghost use Rattle.rules.specs.Propagation.{write};
ghost use Rattle.boards.specs.Line.{line_at, places, Reaches, differ_bits};

use rules::LARGEST_SIDE;

// A board has at most this many rows and columns together.
pub const LINES: usize = 2 * LARGEST_SIDE;

// The first cell, how far apart the cells are, and how many there are.
#[derive(Clone, Copy)]
pub struct Line {
    pub start: usize,
    pub stride: usize,
    pub len: usize,
}

// Line i of a board, rows before columns.
pub fn line_of(w: usize, h: usize, i: usize) -> Line
    requires { (w ≤ 16) × ((h ≤ 16) × (i < h + w)) }
    ensures { result ≡ line_at w h i }
{
    if i < h {
        Line {
            start: i * w,
            stride: 1,
            len: w,
        }
    } else {
        Line {
            start: i - h,
            stride: w,
            len: h,
        }
    }
}

// The line's sets.
pub fn gather(cells: &[u8], line: Line) -> [u8; LARGEST_SIDE]
    requires { Reaches line (length cells.now) }
    ensures { take line.len result ≡ map (λ c. get_or cells.now c 0) (places line) }
{
    let mut sets = [0; LARGEST_SIDE];
    for j in 0..line.len {
        sets[j] = cells[line.start + j * line.stride];
    }
    sets
}

// The line's cells get these sets.
pub fn scatter(cells: &mut [u8], line: Line, sets: [u8; LARGEST_SIDE])
    requires { Reaches line (length cells.old) }
    ensures { cells.new ≡ write cells.old (places line) (take line.len sets) }
{
    for j in 0..line.len {
        cells[line.start + j * line.stride] = sets[j];
    }
}

// Bit j says that the sets of cell j differ.
pub fn differing(old: [u8; LARGEST_SIDE], new: [u8; LARGEST_SIDE], len: usize) -> u32
    requires { len ≤ 16 }
    ensures { result ≡ differ_bits old new len }
{
    let mut bits = 0;
    for j in 0..len {
        bits |= u32::from(old[j] != new[j]) << j;
    }
    bits
}
