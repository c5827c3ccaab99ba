//! Cases of a function: clauses that bound its value where their guards are true, of which no two are true together; their
//! instances, and the table of the function.
#![tactic(auto)]

mod case;
mod instances;
mod table;

pub use case::{Bound, Case, head_bound};
pub use instances::add_case_lines;
pub use table::case_table;
