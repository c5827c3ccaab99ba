//! Classes of functions that are given by their points alone: free functions, and monotone functions of num to num.
#![tactic(auto)]

mod free;
mod monotone;

pub use free::Free;
pub use monotone::Monotone;
