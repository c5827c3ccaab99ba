//! What bounds a problem that was read: its text's length, how many declarations and clauses it has, and how large the numbers
//! of its atoms are together; the grammar, which names it can declare; the limits on parentheses and signs, how deep its terms nest.
#![tactic(auto)]

mod laws;

pub use laws::{few_items, light_numbers, plain_names, shallow_terms};
