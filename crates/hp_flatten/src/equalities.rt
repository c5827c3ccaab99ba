//! The equalities that say of each argument what its word stands for.

ghost use Rattle.std.specs.Prelude.{◌≡◌, ◌++◌, OnOk};
ghost use Rattle.hp_flatten.specs.Flattening.{equalities, equality, is_first, is_place};

use crate::application::Application;
use crate::arguments::place_of;
use crate::terms::flat_term;
use crate::words::argument_word;
use hp_norm::is_variable;
use hp_num::List;
use hp_tree::{Atom, Cmp, Term, Var};
use std::alloc::{AllocError, Global};

/// Adds the equality of each argument whose place is not the first of a variable behind the atoms that are there, in the
/// order of the arguments. An error comes where memory is short.
pub fn add_equalities(
    alloc: Global,
    application: &Application,
    vars: &[Var],
    guard: &mut List<Atom>,
) -> Result<(), AllocError>
    ensures { OnOk result (guard.new ≡ guard.old ++ equalities application.now vars.now) }
{
    for (at, term) in application.args.as_slice().iter().enumerate() {
        add_equality(alloc, application, vars, at, term, guard)?;
    }
    Ok(())
}

/// Adds the equality of the argument at a place, where that is not the first place of a variable.
fn add_equality(
    alloc: Global,
    application: &Application,
    vars: &[Var],
    place: usize,
    term: &Term,
    guard: &mut List<Atom>,
) -> Result<(), AllocError>
    ensures { OnOk result (guard.new ≡ guard.old ++ equality application.now vars.now place term.now) }
{
    if is_first(vars, application.args.as_slice(), place, term) {
        return Ok(());
    }
    let atom = Atom {
        left: Term::Name(argument_word(alloc, place)?),
        cmp: Cmp::Eq,
        right: flat_term(alloc, application, vars, term)?,
    };
    guard.push(atom)
}

/// Whether a term is a variable whose first place among the arguments is this one.
fn is_first(vars: &[Var], args: &[Term], place: usize, term: &Term) -> bool
    ensures { result ≡ is_first vars.now args.now place term.now }
{
    match term {
        Term::Name(word) => {
            is_variable(vars, word.as_slice()) && is_place(place, place_of(args, word))
        }
        Term::Number(_) => false,
        Term::Null => false,
        Term::Apply { .. } => false,
        Term::Add(_, _) => false,
        Term::Sub(_, _) => false,
        Term::Neg(_) => false,
        Term::Scale(_, _) => false,
    }
}

/// Whether a place that may be found is this one.
fn is_place(place: usize, found: Option<usize>) -> bool
    ensures { result ≡ is_place place found }
{
    match found {
        Some(at) => place == at,
        None => false,
    }
}
