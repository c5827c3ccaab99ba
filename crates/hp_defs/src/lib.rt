//! The names of a ground problem, and ground problems: names with the lines over them.
#![tactic(auto)]

mod cell;
mod index;
mod laws;
mod names;
mod places;
mod words;

pub use cell::Cell;
pub use index::CellIndex;
pub use laws::{
    added_is_last, bodies_stay_fit, definitions_stay_fit, fit_names_grow, names_begin,
    numbers_stay, places_are_first, places_stay, words_are_distinct, words_stand_for_names,
};
pub use names::{Constant, Ground, Names, Signature};
pub use words::word_of;
