//! The tests of whole runs over memory: words and a text in, status and text out, streams that fail or are short.
//! They stand here and not beside the code, since a crate with tests is proved twice.
#![tactic(auto)]

#[cfg(test)]
mod arrays;
#[cfg(test)]
mod asking;
#[cfg(test)]
mod cases;
#[cfg(test)]
mod forms;
#[cfg(test)]
mod limits;
#[cfg(test)]
mod runs;
#[cfg(test)]
mod streams;
#[cfg(test)]
mod trees;
#[cfg(test)]
mod universal;
#[cfg(test)]
mod verdicts;
