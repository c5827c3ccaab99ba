//! The clauses of a problem become lines over names: each application is named by its definition, inner before outer.
//! The lines are true exactly where the clauses are: what is made says what the problem says, which is a law.
#![tactic(auto)]

mod clauses;
mod declared;
mod flat;
mod flattening;
mod key;
mod laws;
mod literals;
mod naming;
mod opening;
mod sorting;
mod standing;
mod term_index;
mod testing;
mod trees;

pub use flat::{Flat, FlatClause};
pub use flattening::name_clauses;
pub use laws::{
    atoms_are_named, atoms_make_only, clauses_hold_at_once, clauses_need_constants_alone,
    definitions_are_found, flattening_says,
};
pub use naming::{named, named_atoms};
pub use opening::{is_variable, mentions, opened};
pub use sorting::clause_sort;
pub use term_index::TermIndex;
pub use trees::{gather, same_term, same_terms_are_equal};
