//! Reading and printing are inverse to one another: the printed text of a problem that some text spells
//! spells that problem again. `reprint` answers that text for bytes that are given.
#![tactic(auto)]

mod laws;
mod reprinting;

pub use laws::printed_text_spells;
pub use reprinting::reprint;
