// Reducing a line: each cell keeps exactly the colours that it has in some line that meets the clue and takes each cell's colour from its set.
#![tactic(auto)]

mod layout;
mod machine;
mod reduction;
mod single;

pub use layout::{all_proper, read_line, within};
pub use machine::{Machine, closed, machine_of};
pub use reduction::reduce_by;
pub use single::{Reduction, line_number, reduce_line};
