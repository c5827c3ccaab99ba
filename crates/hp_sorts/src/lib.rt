//! Whether the names of a problem are declared and its terms have their sorts, and what its declarations declare.
//! The rules are said on the tree alone, those on sorts over the scope of a clause: the first item that breaks one is
//! named with the first that it breaks. The limits on the counts of a text are tested here too, apart from the rules.
#![tactic(auto)]

mod checking;
mod clauses;
mod counting;
mod declarations;
mod fault;
mod laws;
mod naming;
mod sorting;
mod symbols;
mod tables;

pub use checking::check;
pub use counting::counts;
pub use fault::SortErr;
pub use laws::{
    faultless_problems_are_well_sorted, nothing_else_is_found, scopes_say_what_is_declared,
    signatures_are_found, variables_widen_scopes,
};
pub use symbols::Symbols;
