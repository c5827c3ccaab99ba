//! Reading the body of an item, token by token: its terms and atoms, by a machine with a stack of open parentheses.
//! The machine's steps are functions of `specs/`, and that they read the grammar of bodies is shown in `proofs/`; what stands around
//! a body is left to the reader of texts.
#![tactic(auto)]

mod body;
mod build;
mod stack;
mod state;
mod stop;
mod term;

pub use body::{Body, Place, Side, Sides};
pub use stack::Stack;
pub use state::{Frame, Front, Mode};
pub use stop::Stop;
