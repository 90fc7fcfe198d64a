// The guesses of a node: those that wait, and where they come from.
#![tactic(auto)]

mod choosing;
mod refill;
mod waiting;

pub use choosing::choose_directions;
pub use refill::{any_closed, first_unsolved, mark};
pub use waiting::{Guess, Guesses};
