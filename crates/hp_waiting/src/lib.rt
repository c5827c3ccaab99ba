//! Which problems are of a form that isn't decided so far.
#![tactic(auto)]

mod applications;
mod functions;
mod waiting;

pub use waiting::is_waiting;
