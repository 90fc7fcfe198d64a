// A puzzle read from the caller's bytes: the table of its lines' machines, and its board, which is given back in the end.
#![tactic(auto)]

mod board;
mod table;

pub use board::{board_of, cells_allowed, give_back};
pub use table::read_table;
