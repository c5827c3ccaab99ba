//! The arguments of the one application of a clause.

ghost use Rattle.std.specs.Prelude.{◌≡◌, ◌<◌, IfSome, length};
ghost use Rattle.std.specs.List.{list_all};
ghost use Rattle.hp_flatten.specs.Flattening.{are_arguments, is_argument, is_lone_variable, is_named, is_plain_argument, place_of};

use crate::sorts::is_num;
use hp_norm::{is_variable, mentions};
use hp_num::Text;
use hp_tree::{Term, Var};

/// Whether each argument is a variable or has none, and the variables are num and are those that are arguments.
pub fn are_arguments(vars: &[Var], args: &[Term]) -> bool
    ensures { result ≡ are_arguments vars.now args.now }
{
    are_plain(vars, args) && are_placed(args, vars)
}

/// Whether each argument is a variable or has none.
fn are_plain(vars: &[Var], args: &[Term]) -> bool
    ensures { result ≡ list_all (is_plain_argument vars.now) args.now }
{
    for arg in args {
        if !is_plain_argument(vars, arg) {
            return false;
        }
    }
    true
}

/// Whether each variable is num and an argument.
fn are_placed(args: &[Term], vars: &[Var]) -> bool
    ensures { result ≡ list_all (is_argument args.now) vars.now }
{
    for var in vars {
        if !is_argument(args, var) {
            return false;
        }
    }
    true
}

/// Whether an argument is a variable, or has none.
fn is_plain_argument(vars: &[Var], term: &Term) -> bool
    ensures { result ≡ is_plain_argument vars.now term.now }
{
    is_lone_variable(vars, term) || !mentions(vars, term)
}

/// Whether a term is a variable alone.
fn is_lone_variable(vars: &[Var], term: &Term) -> bool
    ensures { result ≡ is_lone_variable vars.now term.now }
{
    match term {
        Term::Name(word) => is_variable(vars, word.as_slice()),
        Term::Number(_) => false,
        Term::Null => false,
        Term::Apply { .. } => false,
        Term::Add(_, _) => false,
        Term::Sub(_, _) => false,
        Term::Neg(_) => false,
        Term::Scale(_, _) => false,
    }
}

/// Whether a variable is num and an argument.
fn is_argument(args: &[Term], var: &Var) -> bool
    ensures { result ≡ is_argument args.now var.now }
{
    is_num(var.sort) && place_of(args, &var.name).is_some()
}

/// The place of the first argument that is this name alone, counted from 0, or `None` where none is.
pub fn place_of(args: &[Term], word: &Text) -> Option<usize>
    ensures place { result ≡ place_of args.now word.now }
    ensures within { IfSome result (λ place. place < length args.now) }
{
    for (at, arg) in args.iter().enumerate() {
        if is_named(word, arg) {
            return Some(at);
        }
    }
    None
}

/// Whether a term is this name alone.
fn is_named(word: &Text, term: &Term) -> bool
    ensures { result ≡ is_named word.now term.now }
{
    match term {
        Term::Name(name) => word.as_slice() == name.as_slice(),
        Term::Number(_) => false,
        Term::Null => false,
        Term::Apply { .. } => false,
        Term::Add(_, _) => false,
        Term::Sub(_, _) => false,
        Term::Neg(_) => false,
        Term::Scale(_, _) => false,
    }
}
