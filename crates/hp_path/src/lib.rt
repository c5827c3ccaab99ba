//! The literals of a path, decided by the engine of each sort: values that make all of them true, a valid leaf, or a
//! strain over the literals over fractions.
#![tactic(auto)]

mod belonging;
mod chains;
mod components;
mod deciding;
mod fit;
mod labels;
mod pairs;
mod parting;
mod placing;
mod quick;
mod rows;

pub use belonging::component_of_last;
pub use deciding::{Decision, decide};
pub use fit::are_fit;
pub use quick::{Quick, decide_patiently, decide_quickly};
