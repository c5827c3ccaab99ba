//! The normal forms of terms and atoms of sort idx and ptr: an index term becomes a name plus a whole number, a pointer
//! term a name or null, and atoms become bounds on differences, equalities and inequalities.
//! What forms and literals say is tied to the values of terms and the truth of atoms by laws.
#![tactic(auto)]

mod atoms;
mod compare;
mod form;
mod laws;
mod pointers;
mod words;

pub use atoms::literals;
pub use compare::form_literals;
pub use form::{IndexForm, index_form};
pub use laws::{
    form_literals_are_fit, form_literals_compare, literals_are_fit, literals_are_true_with_atoms,
    offsets_are_within_weights, ptr_literals_are_fit, ptr_literals_are_true_with_atoms,
    terms_have_fit_forms, terms_have_fit_pointers, terms_have_form_values,
    terms_have_pointer_values,
};
pub use pointers::{asks_same, pointer, pointer_literals};
