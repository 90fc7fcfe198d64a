// The public face: the search over a caller's bytes.
#![tactic(auto)]

mod answers;
mod refusals;
mod searching;
mod solving;

pub use answers::{Answer, Numbers, Outcome};
pub use rules::Refusal;
pub use runs::{Limit, Stats};
pub use solving::solve;
