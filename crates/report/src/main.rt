// Prints the answers to puzzles that are written here, each with its grids: first Twin, which has two, then the limits, then one puzzle for each other way in which a search can end.
#![tactic(auto)]

mod print;

use belutharin::{Numbers, Outcome};
use std::io;

// A puzzle, and the limits of its search.
#[derive(Clone, Copy)]
struct Puzzle<'a> {
    w: usize,
    h: usize,
    k: usize,
    clues: &'a [u8],
    most_grids: usize,
    most_depth: usize,
    budget: u64,
}

// Two rows and two columns with one block of 1 each: two grids.
const TWIN: Puzzle<'static> = Puzzle {
    w: 2,
    h: 2,
    k: 1,
    clues: &[1; 12],
    most_grids: 4,
    most_depth: 15,
    budget: 100,
};

// Five rows and five columns: three grids.
const THREE_GRIDS: Puzzle<'static> = Puzzle {
    w: 5,
    h: 5,
    k: 1,
    clues: &[
        1, 1, 1, 2, 1, 1, 1, 2, 1, 1, 2, 1, 1, 1, 1, 1, 2, 1, 1, 2, 1, 1, 1, 2, 1, 1, 1, 1, 2, 1,
        1, 1, 2, 1, 1, 1,
    ],
    most_grids: 32,
    most_depth: 15,
    budget: 400,
};

// Four rows and four columns with one block of 1 each, of the first colour and of the second by turns: four grids.
const TWO_COLOURS: Puzzle<'static> = Puzzle {
    w: 4,
    h: 4,
    k: 2,
    clues: &[
        1, 1, 1, 1, 2, 1, 1, 1, 1, 1, 2, 1, 1, 1, 1, 1, 2, 1, 1, 1, 1, 1, 2, 1,
    ],
    most_grids: 128,
    most_depth: 15,
    budget: 10000,
};

// Four columns and six rows of three colours, solved with no guess.
const THREE_COLOURS: Puzzle<'static> = Puzzle {
    w: 4,
    h: 6,
    k: 3,
    clues: &[
        2, 2, 1, 3, 2, 1, 3, 1, 1, 1, 3, 1, 1, 4, 1, 1, 2, 1, 2, 1, 2, 2, 1, 1, 2, 2, 1, 2, 2, 1,
        2, 3, 1, 1, 3, 2, 3, 2, 1, 2,
    ],
    most_grids: 33,
    most_depth: 15,
    budget: 1500,
};

// One cell, and no blocks.
const NO_BLOCKS: Puzzle<'static> = Puzzle {
    w: 1,
    h: 1,
    k: 1,
    clues: &[0; 2],
    most_grids: 1,
    most_depth: 15,
    budget: 100,
};

fn main(rt: HostRuntime) -> io::Result<()> {
    twin(&rt, TWIN)?;
    twin(
        &rt,
        Puzzle {
            most_grids: 2,
            ..TWIN
        },
    )?;
    twin(&rt, Puzzle { budget: 1, ..TWIN })?;
    twin(
        &rt,
        Puzzle {
            most_depth: 0,
            ..TWIN
        },
    )?;
    report(&rt, THREE_GRIDS, &mut [3; 25], &mut [0; 800])?;
    report(&rt, TWO_COLOURS, &mut [7; 16], &mut [0; 2048])?;
    report(&rt, THREE_COLOURS, &mut [15; 24], &mut [0; 792])?;
    ends_at_once(&rt)?;
    twin(
        &rt,
        Puzzle {
            budget: 1000000001,
            ..TWIN
        },
    )
}

// Twin, with the limits that are given.
fn twin(rt: &impl Print, puzzle: Puzzle) -> io::Result<()> {
    report(rt, puzzle, &mut [3; 4], &mut [0; 16])
}

// The answers that need no search: one cell that may be blank is solved, and one that may not, or whose row has a block and whose column has none, is a dead end; a row of 17 cells is refused.
fn ends_at_once(rt: &impl Print) -> io::Result<()> {
    report(rt, NO_BLOCKS, &mut [3], &mut [0])?;
    report(rt, NO_BLOCKS, &mut [2], &mut [0])?;
    let row_without_column = Puzzle {
        clues: &[1, 1, 1, 0],
        ..NO_BLOCKS
    };
    report(rt, row_without_column, &mut [3], &mut [0])?;
    let too_wide = Puzzle {
        w: 17,
        clues: &[0; 18],
        ..NO_BLOCKS
    };
    report(rt, too_wide, &mut [3; 17], &mut [0; 17])
}

// A search, and what is printed of it.
fn report(rt: &impl Print, puzzle: Puzzle, cells: &mut [u8], list: &mut [u8]) -> io::Result<()> {
    let Puzzle { w, h, .. } = puzzle;
    let answer = belutharin::solve(
        w,
        h,
        puzzle.k,
        puzzle.clues,
        &mut *cells,
        &mut *list,
        puzzle.most_grids,
        puzzle.most_depth,
        puzzle.budget,
    );
    print::answer_line(rt, Numbers::from(answer))?;
    let Ok(answer) = answer else {
        return Ok(());
    };
    match answer.outcome {
        Outcome::Solved => print::grid_line(rt, 0, cells),
        Outcome::Listed => print::grid_lines(rt, list, w, h, answer.stats.grids),
        Outcome::DeadEnd => Ok(()),
    }
}
