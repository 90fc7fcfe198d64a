// Handing out grid number i of the n that stand one after the other in a caller's list, as a part of that list.
#![tactic(auto)]

mod handing;

pub use handing::{Handed, Place, grid, number, part, place_of};
