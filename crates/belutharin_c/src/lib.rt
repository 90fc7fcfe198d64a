// The functions for C, on numbers and lent bytes; c/belutharin.h declares them. A slice is two parameters of C's, a pointer and a length. A function gives back its number, and writes what else it gives back through pointers.
#![tactic(auto)]

ghost use Rattle.std.specs.Prelude.{◌≡◌, ◌*◌};
ghost use Rattle.rules.specs.Answers.{solve, line, reduce_line, grid_of};
ghost use Rattle.rules.specs.Promises.{Promised, LinePromised};
ghost use Rattle.rates.specs.Answered.{Answered};
ghost use Rattle.belutharin.specs.Answers.{asked};
ghost use Rattle.belutharin_c.specs.Handing.{part_at, start_of, size_of};
ghost use Rattle.belutharin_c.specs.Answering.{answer};

use belutharin::Numbers;

// The search: its number, and through the last four the grids stored, the steps, the deepest depth and the first limit met.
#[unsafe(no_mangle)]
pub extern "C" fn belutharin_solve(
    w: usize,
    h: usize,
    k: usize,
    clues: &[u8],
    cells: &mut [u8],
    list: &mut [u8],
    most_grids: usize,
    most_depth: usize,
    budget: u64,
    grids: &mut usize,
    steps: &mut u64,
    deepest: &mut usize,
    limit: &mut u8,
) -> u8
    ensures answered { answer result grids.new steps.new deepest.new limit.new cells.new list.new
        ≡ solve (asked w h k most_grids most_depth budget clues.now cells.old list.old) }
    ensures promised { Promised (asked w h k most_grids most_depth budget clues.now cells.old list.old)
        (answer result grids.new steps.new deepest.new limit.new cells.new list.new) }
{
    let answer = Numbers::from(belutharin::solve(
        w, h, k, clues, cells, list, most_grids, most_depth, budget,
    ));
    *grids = answer.grids;
    *steps = answer.steps;
    *deepest = answer.deepest;
    *limit = answer.limit;
    answer.number
}

// Reducing one line: its number, and after 1 the reduced sets in the cells.
#[unsafe(no_mangle)]
pub extern "C" fn belutharin_reduce_line(k: usize, clue: &[u8], cells: &mut [u8]) -> u8
    ensures answered { line result cells.new ≡ reduce_line k clue.now cells.old }
    ensures promised { LinePromised k clue.now cells.old (line result cells.new) }
{
    lines::line_number(lines::reduce_line(k, clue, cells))
}

// The rate: its number, and through the last the rate.
#[unsafe(no_mangle)]
pub extern "C" fn belutharin_rate(max: u64, min: u64, rate: &mut f64) -> u8
    ensures { Answered max min result rate.new }
{
    let (number, found) = rates::numbered(rates::rate(max, min));
    *rate = found;
    number
}

// Grid number i of n in a list: its number, and through the last two where its part starts in the list and the part's size, both 0 if it is refused.
#[unsafe(no_mangle)]
pub extern "C" fn belutharin_grid(
    list: &[u8],
    w: usize,
    h: usize,
    n: usize,
    i: usize,
    start: &mut usize,
    size: &mut usize,
) -> u8
    ensures answered { part_at list.now result start.new size.new ≡ grid_of list.now w h n i }
    ensures placed { (start.new ≡ start_of result i (w * h)) × (size.new ≡ size_of result (w * h)) }
{
    match grids::place_of(list, w, h, n, i) {
        Ok(place) => {
            *start = place.start;
            *size = place.size;
            0
        }
        Err(refusal) => {
            *start = 0;
            *size = 0;
            refusal.number()
        }
    }
}
