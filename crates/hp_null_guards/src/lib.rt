//! The rules on clauses over pointer fields: what they are over, and which pointers in them have a null guard.
#![tactic(auto)]

mod guards;
mod laws;
mod pointers;

pub use guards::has_null_guards;
pub use laws::guarded_sides_are_good;
pub use pointers::is_over_pointers;
