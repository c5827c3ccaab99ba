//! Clauses with one application, said of the words of its arguments: `$1`, `$2` and so on.
#![tactic(auto)]

mod application;
mod arguments;
mod equalities;
mod flattening;
mod laws;
mod sorts;
mod terms;
mod words;

pub use application::{Application, clause_applications};
pub use arguments::are_arguments;
pub use flattening::flatten;
pub use laws::flattened_clauses_say_the_same;
pub use sorts::{is_idx, is_num, is_ptr};
pub use words::argument_word;
