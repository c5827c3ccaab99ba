//! Tables of functions through their applications, and the pairs of applications at which monotone clauses have instances.
#![tactic(auto)]

mod index;
mod pairs;
mod steps;
mod tables;
mod values;

pub use pairs::add_pair_lines;
pub use steps::{first_value, step_table};
pub use tables::{free_table, table};
pub use values::args_of;
