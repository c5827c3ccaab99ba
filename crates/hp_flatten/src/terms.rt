//! Terms over the words of the arguments of an application.

ghost use Rattle.std.specs.Prelude.{◌≡◌, length, map, if◌then◌else◌, IfOk};
ghost use Rattle.std.specs.Str.{bytes_eq};
ghost use Rattle.hp_flatten.specs.Flattening.{argument_names, flat_atom, flat_term, flat_word, placed_word};

use crate::application::Application;
use crate::arguments::place_of;
use crate::words::{argument_names, argument_word};
use hp_norm::is_variable;
use hp_num::{List, Text};
use hp_tree::{Atom, Term, Var};
use sqlite_items::Boxed;
use std::alloc::{AllocError, Global};

/// The term with the word of its first place for each variable, and with the words for the arguments of the function of the
/// application. An error comes where memory is short.
#[cycle(flat_term)]
pub fn flat_term(
    alloc: Global,
    application: &Application,
    vars: &[Var],
    term: &Term,
) -> Result<Term, AllocError>
    ensures { IfOk result (λ flat. flat ≡ flat_term application.now vars.now term.now) }
{
    match term {
        Term::Number(number) => Ok(Term::Number(*number)),
        Term::Null => Ok(Term::Null),
        Term::Name(word) => Ok(Term::Name(flat_word(
            alloc,
            vars,
            application.args.as_slice(),
            word,
        )?)),
        Term::Apply { func, args } => {
            let args = flat_args(alloc, application, vars, func, args.as_slice())?;
            Ok(Term::Apply {
                func: func.copy(alloc)?,
                args,
            })
        }
        Term::Add(left, right) => {
            let left = flat_term(alloc, application, vars, left.get())?;
            let right = flat_term(alloc, application, vars, right.get())?;
            Ok(Term::Add(Boxed::new(alloc, left)?, Boxed::new(alloc, right)?))
        }
        Term::Sub(left, right) => {
            let left = flat_term(alloc, application, vars, left.get())?;
            let right = flat_term(alloc, application, vars, right.get())?;
            Ok(Term::Sub(Boxed::new(alloc, left)?, Boxed::new(alloc, right)?))
        }
        Term::Neg(inner) => {
            let inner = flat_term(alloc, application, vars, inner.get())?;
            Ok(Term::Neg(Boxed::new(alloc, inner)?))
        }
        Term::Scale(number, inner) => {
            let inner = flat_term(alloc, application, vars, inner.get())?;
            Ok(Term::Scale(*number, Boxed::new(alloc, inner)?))
        }
    }
}

/// The arguments of a function: the words where it is that of the application.
#[cycle(flat_term)]
fn flat_args(
    alloc: Global,
    application: &Application,
    vars: &[Var],
    func: &Text,
    args: &[Term],
) -> Result<List<Term>, AllocError>
    ensures { IfOk result (λ flats. flats ≡ (if bytes_eq func.now application.now.func then argument_names (length application.now.args) else map (flat_term application.now vars.now) args.now)) }
{
    if func.as_slice() == application.func.as_slice() {
        argument_names(alloc, application.args.len())
    } else {
        flat_terms(alloc, application, vars, args)
    }
}

/// The flat terms in their order.
#[cycle(flat_term)]
fn flat_terms(
    alloc: Global,
    application: &Application,
    vars: &[Var],
    terms: &[Term],
) -> Result<List<Term>, AllocError>
    ensures { IfOk result (λ flats. flats ≡ map (flat_term application.now vars.now) terms.now) }
{
    let mut flats = List::new(alloc);
    for term in terms {
        let flat = flat_term(alloc, application, vars, term)?;
        flats.push(flat)?;
    }
    Ok(flats)
}

/// The word of the first place of a variable among the arguments. Each other name keeps its word.
fn flat_word(alloc: Global, vars: &[Var], args: &[Term], word: &Text) -> Result<Text, AllocError>
    ensures { IfOk result (λ flat. flat ≡ flat_word vars.now args.now word.now) }
{
    if is_variable(vars, word.as_slice()) {
        placed_word(alloc, word, place_of(args, word))
    } else {
        word.copy(alloc)
    }
}

/// The word of the argument at a place, where there is one.
fn placed_word(alloc: Global, word: &Text, place: Option<usize>) -> Result<Text, AllocError>
    ensures { IfOk result (λ placed. placed ≡ placed_word word.now place) }
{
    match place {
        Some(at) => argument_word(alloc, at),
        None => word.copy(alloc),
    }
}

/// The flat atoms in their order. An error comes where memory is short.
pub fn flat_atoms(
    alloc: Global,
    application: &Application,
    vars: &[Var],
    atoms: &[Atom],
) -> Result<List<Atom>, AllocError>
    ensures { IfOk result (λ flats. flats ≡ map (flat_atom application.now vars.now) atoms.now) }
{
    let mut flats = List::new(alloc);
    for atom in atoms {
        let flat = flat_atom(alloc, application, vars, atom)?;
        flats.push(flat)?;
    }
    Ok(flats)
}

/// The atom of the flat sides.
fn flat_atom(
    alloc: Global,
    application: &Application,
    vars: &[Var],
    atom: &Atom,
) -> Result<Atom, AllocError>
    ensures { IfOk result (λ flat. flat ≡ flat_atom application.now vars.now atom.now) }
{
    Ok(Atom {
        left: flat_term(alloc, application, vars, &atom.left)?,
        cmp: atom.cmp,
        right: flat_term(alloc, application, vars, &atom.right)?,
    })
}
