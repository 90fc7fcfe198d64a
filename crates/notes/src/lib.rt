// A round's notes, and the orders in which guesses are chosen from them.
#![tactic(auto)]

mod choosing;
mod round;

pub use choosing::{cell_order, colour_order, rate_by_impact};
pub use round::{Note, Notes};
