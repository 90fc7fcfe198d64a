// The search: nodes and guesses. The functions that stand in nonogrid's backtracking.rs bear its names.
#![tactic(auto)]

mod ended;
mod guess;
mod node;
mod nodes;
mod store;
mod task;

pub use ended::Ended;
pub use nodes::search;
pub use task::Task;
