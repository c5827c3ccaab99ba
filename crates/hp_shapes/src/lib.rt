//! Clauses of monotone shape in their written forms, and the tables of step functions through points.
#![tactic(auto)]

mod laws;
mod number;
mod shape;
mod steps;

pub use laws::shapes_are_those_of_clauses;
pub use number::{number_term, zero};
pub use shape::{Form, form_of};
pub use steps::{StepPoint, add_in_order, table_of};
