//! The top call of the program: words, bytes in, bytes out, and the exit status.
#![tactic(auto)]

mod answer;
mod deciding;
mod laws;
mod refusals;
mod running;
mod transfer;
mod words;

pub use answer::Status;
pub use laws::one_answer;
pub use running::run;
pub use words::Task;
