//! Clauses with variables at arguments: variables are replaced, applications named, and the line says what the clause says
//! at the values of the arguments, which is a law.
#![tactic(auto)]

mod instances;
mod laws;
mod literals;
mod replacing;
mod sorting;
mod tuple;

pub use instances::instantiate;
pub use laws::{arguments_come_back, instances_say, plain_tuples_fit};
pub use tuple::Tuple;
