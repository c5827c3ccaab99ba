//! The class of arrays: functions of one index, read at variables that guards bound.
#![tactic(auto)]

mod arrays;

pub use arrays::Arrays;
