//! Completions of local classes of functions, over values alone: a frame has the points of the functions at a valuation,
//! a group of functions gets tables that have its points and make its clauses hold, and groups complete each other level
//! by level. Literals, lines and ground sets are judged above.
#![tactic(auto)]

mod laws;

pub use laws::{
    arrays_complete, cases_complete, completions_apply_lower, completions_are_sorted,
    facts_are_added_once, fields_complete, fields_stay_true, free_completes, fuel_is_enough,
    functions_follow_tables, levels_complete, monotone_completes, nearest_is_kept,
    null_guards_suffice, numbers_are_terms, points_are_kept, steps_have_points,
    substitutes_have_values, table_scopes_fit, values_are_local,
};
