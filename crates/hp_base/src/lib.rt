//! Ground sets are made: definitions found or made, arguments of applications, sums with their lines, and congruence.
//! What is made says what the terms say, and stays so while more is added: these are laws.
#![tactic(auto)]

mod arguments;
mod congruence;
mod defining;
mod laws;
mod limit;
mod lines;

pub use arguments::argument;
pub use congruence::add_congruence;
pub use defining::{definition, sum};
pub use laws::{
    added_lines_are_last, applications_are_points, arguments_are_small, arguments_begin,
    arguments_fit, arguments_keep_fit, arguments_keep_made, arguments_keep_sums,
    arguments_keep_truth, arguments_say, arguments_stay_fit, congruence_fits, congruence_is_added,
    congruence_says, defined_names_have_words, defined_words_have_sorts, definitions_begin,
    definitions_fit, definitions_keep_fit, definitions_keep_lines, definitions_keep_made,
    definitions_keep_sums, definitions_say, definitions_stand, lines_keep_sums, literals_fit,
    literals_say, scopes_widen, sums_hold_by_bodies, sums_hold_by_lines, sums_say,
};
pub use limit::computed;
pub use lines::{add_line, literals_as};
