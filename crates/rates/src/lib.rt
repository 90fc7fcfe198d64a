// The numbers that put cells in order, rates and priorities: f64, with each operation rounded once.
#![tactic(auto)]

mod roots;

ghost use Rattle.std.specs.Prelude.{◌≡◌, ◌≤◌};
ghost use Rattle.rules.specs.Floats as Floats;
ghost use Rattle.rates.specs.Answered.{rate_answer, Answered};

use roots::root;
use rules::Refusal;

// The largest count of newly solved cells.
const LARGEST_COUNT: u64 = 255;

// The rate of a cell whose colours newly solve max cells at most and min at least; refused where max > 255 or min > max.
pub fn rate(max: u64, min: u64) -> Result<f64, Refusal>
    ensures { let answer = rate_answer result in Answered max min answer.number answer.rate }
{
    if max <= LARGEST_COUNT && min <= max {
        Ok(rate_of(max as u8, min as u8))
    } else {
        Err(Refusal::Rate)
    }
}

// The number and the rate that the caller of a rate is given: 0 with a rate, and the number of a refusal with 0.0.
pub fn numbered(answer: Result<f64, Refusal>) -> (u8, f64)
    ensures number { result.0 ≡ (rate_answer answer).number }
    ensures rate { result.1 ≡ (rate_answer answer).rate }
{
    match answer {
        Ok(rate) => (0, rate),
        Err(refusal) => (refusal.number(), 0.0),
    }
}

// The rate of legal counts, which the search has: sqrt(max/(min+1)) + min.
#[tactic(auto, unfolding(rules::specs::Floats::rate))]
pub fn rate_of(max: u8, min: u8) -> f64
    requires { min ≤ max }
    ensures { result ≡ Floats.rate max min }
{
    root(max, min) + f64::from(min)
}

// (4 minus unsolved neighbours, plus row rate) plus column rate; a rate is solved cells divided by the line's length.
#[tactic(auto, unfolding(rules::specs::Floats::priority_of))]
pub fn priority(
    unsolved: u8,
    row_solved: u8,
    row_length: u8,
    column_solved: u8,
    column_length: u8,
) -> f64
    requires { unsolved ≤ 4 }
    ensures { result ≡ Floats.priority_of unsolved row_solved row_length column_solved column_length }
{
    let row_rate = f64::from(row_solved) / f64::from(row_length);
    let column_rate = f64::from(column_solved) / f64::from(column_length);
    (f64::from(4 - unsolved) + row_rate) + column_rate
}

// The first is the higher.
pub fn higher(a: f64, b: f64) -> bool
    ensures { result ≡ Floats.higher a b }
{
    b < a
}
