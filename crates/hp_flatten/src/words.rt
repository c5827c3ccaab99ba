//! The words of arguments, with the variables and the terms of these words.

ghost use Rattle.std.specs.Prelude.{◌≡◌, ◌≤◌, take, IfOk};
ghost use Rattle.hp_local.specs.Rows.{argument_words};
ghost use Rattle.hp_flatten.specs.Flattening.{argument_names, argument_vars, argument_word};

use hp_num::{List, Text};
use hp_tree::{Sort, Term, Var};
use std::alloc::{AllocError, Global};

/// The most arguments that have a word.
const MOST: usize = 4;

/// The word of the argument at a place, counted from 0: `$1` to `$4`, and no letter behind these. `Err` says that memory was
/// wanting.
pub fn argument_word(alloc: Global, place: usize) -> Result<Text, AllocError>
    ensures { IfOk result (λ word. word ≡ argument_word place) }
{
    match place {
        0 => Text::from_slice(alloc, b"$1"),
        1 => Text::from_slice(alloc, b"$2"),
        2 => Text::from_slice(alloc, b"$3"),
        3 => Text::from_slice(alloc, b"$4"),
        _ => Ok(Text::new(alloc)),
    }
}

/// The variables of the first words, so many as there are arguments, of sort num.
pub fn argument_vars(alloc: Global, count: usize) -> Result<List<Var>, AllocError>
    ensures { IfOk result (λ vars. vars ≡ argument_vars count) }
{
    let mut vars = List::new(alloc);
    for place in 0..worded(count) {
        vars.push(Var {
            name: argument_word(alloc, place)?,
            sort: Sort::Num,
        })?;
    }
    Ok(vars)
}

/// The names of the first words, so many as there are arguments.
pub fn argument_names(alloc: Global, count: usize) -> Result<List<Term>, AllocError>
    ensures { IfOk result (λ names. names ≡ argument_names count) }
{
    let mut names = List::new(alloc);
    for place in 0..worded(count) {
        names.push(Term::Name(argument_word(alloc, place)?))?;
    }
    Ok(names)
}

/// How many of so many arguments have a word.
fn worded(count: usize) -> usize
    ensures words { take result argument_words ≡ take count argument_words }
    ensures most { result ≤ 4 }
{
    if count < MOST { count } else { MOST }
}
