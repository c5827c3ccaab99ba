//! The normal form of what is of sort num: terms become linear forms over fractions, and comparisons of forms, and so
//! atoms, become literals over fractions, with whole coefficients.
//! What forms and literals say is tied to the values of terms and the truth of atoms by laws.
#![tactic(auto)]

mod atoms;
mod compare;
mod laws;
mod lin;
mod numbers;
mod parts;
mod terms;
mod wholes;

pub use atoms::literals;
pub use compare::lin_literals;
pub use laws::{
    lin_literals_are_fit, lin_literals_compare, literals_are_fit, literals_are_true_with_atoms,
    terms_have_fit_lins, terms_have_lin_values,
};
pub use lin::{named_lin, number_lin, zero_lin};
pub use terms::linear_form;
