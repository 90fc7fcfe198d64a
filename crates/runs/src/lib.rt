// What a run has done so far: the grids stored in the caller's list, the steps, how deep it was and the first limit met.
#![tactic(auto)]

mod limits;
mod stored;

pub use limits::{Limit, Limits, Stats, limit_number, limits_reached};
pub use stored::add_solution;
