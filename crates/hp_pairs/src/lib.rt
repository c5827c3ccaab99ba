//! The pairs of cases of which no values may meet all rows, and what is shown where some do.
#![tactic(auto)]

mod answer;
mod branch;
mod pairs;
mod point;
mod test;
mod text;

pub use answer::{Outside, PairErr, PairStrain, PlaceValue};
pub use branch::{Branch, Given};
pub use pairs::separate;
pub use text::outside_text;
