//! Equalities and inequalities of pointers: values that make all of them true, or an inequality whose sides equalities
//! join.
//!
//! Names become numbered nodes, equalities make classes of them, and each class has its least node as its value.
#![tactic(auto)]

mod answer;
mod classes;
mod ways;

pub use answer::{PtrAnswer, decide};
