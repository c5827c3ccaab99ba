//! Structures of finite piecewise tables, the truth of clauses in them, and their text.
#![tactic(auto)]

mod laws;
mod structure;
mod writing;

pub use laws::{
    declared_scopes_keep_sorts, functions_have_sorts, no_functions_no_tables, plain_clauses_hold,
    table_scopes_keep_sorts,
};
pub use structure::{ConstValue, Row, Structure, Table};
pub use writing::write_structure;
