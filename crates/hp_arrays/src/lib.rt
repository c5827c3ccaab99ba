//! Groups of arrays: their elements over the index set, and their tables.
#![tactic(auto)]

mod elements;
mod table;

pub use elements::add_elements;
pub use table::array_tables;
