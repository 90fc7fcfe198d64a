// How a guess or a node ends, at a limit or otherwise.
ghost use Rattle.backtracking.specs.Comes.{Asks};

use boards::Board;
use runs::{Limits, Stats, limit_number, limits_reached};
use std::ops::ControlFlow;
use std::ops::ControlFlow::{Break, Continue};

// Whether it is dead, the board as it left it, and the counts.
#[derive(Clone, Copy)]
pub struct Ended {
    pub dead: bool,
    pub board: Board,
    pub stats: Stats,
}

// Limits are asked: one that is met is noted, and what it ends is not dead.
pub fn ask(board: Board, stats: Stats, limits: Limits, depth: usize) -> ControlFlow<Ended>
    ensures { Asks board stats limits depth result }
{
    match limits_reached(stats, limits, depth) {
        None => Continue(()),
        Some(m) => Break(Ended {
            dead: false,
            board,
            stats: stats.noted(limit_number(Some(m))),
        }),
    }
}
