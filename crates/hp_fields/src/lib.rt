//! Groups of pointer fields: the pointers at which their clauses have instances, and their tables.
#![tactic(auto)]

mod table;
mod terms;

pub use table::field_tables;
pub use terms::pointer_terms;
