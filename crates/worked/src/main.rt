// Runs the worked grids of docs/RULES.md that are left to a program, and prints whether what comes of each is what that page says.
#![tactic(auto)]

use expected::{Expected, Numbers, Question, UNTOUCHED};
use std::io;

// Twin, with the limits of that page.
const TWIN: Question = Question {
    w: 2,
    h: 2,
    k: 1,
    most_grids: 4,
    most_depth: 15,
    budget: 100,
};

fn main(rt: HostRuntime) -> io::Result<()> {
    say(&rt, 7, refused_rate())?;
    say(&rt, 13, fewer_grids())?;
    say(&rt, 14, less_depth_or_budget())?;
    say(&rt, 15, bounds())
}

fn say(rt: &impl Print, grid: u64, agrees: bool) -> io::Result<()> {
    let says = if agrees { "agrees" } else { "differs" };
    println!(rt; "grid {grid} {says}")
}

// Grid 7: the rate of 256 and 0 is refused.
fn refused_rate() -> bool {
    rates::numbered(rates::rate(256, 0)) == (19, 0.0)
}

// Grid 13: Twin with most grids 2, and 0.
fn fewer_grids() -> bool {
    let two = Question {
        most_grids: 2,
        ..TWIN
    };
    let none = Question {
        most_grids: 0,
        ..TWIN
    };
    twin(two, listed(2, 2, 1, 1)) && twin(none, listed(0, 0, 0, 1))
}

// Grid 14: Twin with depth 0, with budget 1, and with budget 0.
fn less_depth_or_budget() -> bool {
    let no_guess = Question {
        most_depth: 0,
        ..TWIN
    };
    let one_step = Question { budget: 1, ..TWIN };
    let no_step = Question { budget: 0, ..TWIN };
    twin(no_guess, listed(2, 8, 1, 3))
        && twin(one_step, listed(1, 1, 1, 2))
        && twin(no_step, listed(0, 0, 0, 2))
}

// Grid 15: the widest board and one wider, the largest budget and one more.
fn bounds() -> bool {
    let largest = Question {
        budget: 1000000000,
        ..TWIN
    };
    let one_more = Question {
        budget: 1000000001,
        ..TWIN
    };
    widest() && too_wide() && twin(largest, listed(2, 8, 1, 0)) && twin(one_more, ended(13))
}

// A listed answer. Where the page leaves the steps or the deepest unsaid, they are those of the vectors.
fn listed(grids: u64, steps: u64, deepest: u64, limit: u64) -> Numbers {
    Numbers {
        number: 2,
        grids,
        steps,
        deepest,
        limit,
    }
}

// An answer with zeros: an outcome before the search, or a refusal.
fn ended(number: u64) -> Numbers {
    Numbers {
        number,
        ..listed(0, 0, 0, 0)
    }
}

// Whether Twin gives what is expected: the first of its two grids, in their order, and a board with nothing deduced.
fn twin(q: Question, answer: Numbers) -> bool {
    let both = [1, 2, 2, 1, 2, 1, 1, 2];
    let grids = &both[..4 * answer.grids.min(2) as usize];
    let expected = Expected {
        answer,
        board: &[3; 4],
        grids,
    };
    expected::agrees(q, &[1; 12], &mut [3; 4], &mut [UNTOUCHED; 16], expected)
}

// A row of 16 cells with no blocks is solved: all blank.
fn widest() -> bool {
    let expected = Expected {
        answer: ended(1),
        board: &[1; 16],
        grids: &[],
    };
    expected::agrees(
        row(16),
        &[0; 17],
        &mut [3; 16],
        &mut [UNTOUCHED; 16],
        expected,
    )
}

// A row of 17 cells is refused, and untouched.
fn too_wide() -> bool {
    let expected = Expected {
        answer: ended(11),
        board: &[3; 17],
        grids: &[],
    };
    expected::agrees(
        row(17),
        &[0; 18],
        &mut [3; 17],
        &mut [UNTOUCHED; 17],
        expected,
    )
}

fn row(w: usize) -> Question {
    Question {
        w,
        h: 1,
        k: 1,
        most_grids: 1,
        ..TWIN
    }
}
