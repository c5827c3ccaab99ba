//! The tests of the layers below a run, from the bottom, over their public calls: numbers, tokens, evidence, engines and the
//! search. They stand here and not beside the code, since a crate with tests is proved twice, and apart from the tests of
//! runs, so that both are proved side by side.
#![tactic(auto)]

#[cfg(test)]
mod bounds;
#[cfg(test)]
mod evidence;
#[cfg(test)]
mod leaves;
#[cfg(test)]
mod literals;
#[cfg(test)]
mod numbers;
#[cfg(test)]
mod paths;
#[cfg(test)]
mod pointers;
#[cfg(test)]
mod rows;
#[cfg(test)]
mod searches;
#[cfg(test)]
mod sides;
#[cfg(test)]
mod tokens;
