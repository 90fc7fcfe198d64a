// Probing: what comes of assuming each colour of a cell. The functions that stand in nonogrid's probing.rs bear its names.
#![tactic(auto)]

mod neighbours;
mod probe;
mod rounds;
mod start;

pub use neighbours::push_both;
pub use rounds::{Probed, propagate_point, run, run_unsolved};
pub use start::unsolved_cells;
