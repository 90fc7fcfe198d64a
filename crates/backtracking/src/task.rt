// What a search is given besides the board.
use boards::LINES;
use lines::Machine;
use runs::Limits;

// The machines of the puzzle's lines, and the limits of the run.
#[derive(Clone, Copy)]
pub struct Task<'a> {
    pub machines: &'a [Machine; LINES],
    pub limits: Limits,
}
