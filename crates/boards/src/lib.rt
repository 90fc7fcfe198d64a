// The board, held by value: its rows and columns, propagating from a cell, and the final check.
#![tactic(auto)]

mod board;
mod line;
mod propagation;

pub use board::{Board, is_new, newly_solved};
pub use line::{LINES, Line, line_of};
