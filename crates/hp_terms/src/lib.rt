//! Terms where words mean something: a scope gives each name its sort and each function its profile, and the rules on
//! sorts are said over it. Problems, clauses whose applications are names, and the terms of tables are judged by them.
#![tactic(auto)]

mod forms;
mod laws;

pub use forms::{Forms, relates};
pub use laws::{
    agreeing_scopes_form_alike, agreeing_scopes_sort_alike, applications_follow_profiles,
    made_words_are_not_plain, made_words_differ, parts_of_sorted_terms_are_sorted,
    parts_weigh_no_more, sorted_terms_have_sorted_values, wider_scopes_keep_forms,
    wider_scopes_keep_sorts,
};
