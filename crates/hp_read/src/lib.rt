//! The reader of problems: from the bytes of a text to its syntax tree, or to its printed text, or to the first fault of the text.
//! What bytes spell and what their fault is, `hp_grammar` says, apart from the reader. The bodies of items are read in `hp_body`.
#![tactic(auto)]

mod laws;
mod lines;
mod reader;
mod stage;
mod transcript;

pub use laws::{spells_one_problem, spells_or_has_fault, spells_without_fault};
pub use reader::read;
pub use transcript::transcribe;
