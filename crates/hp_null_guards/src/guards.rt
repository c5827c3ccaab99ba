//! The rule on null guards: a pointer that a field gives is read further only where the clause says what to do with null.

ghost use Rattle.std.specs.Prelude.{◌≡◌, ◌||◌, ◌&&◌, not, IfOk, Some};
ghost use Rattle.std.specs.List.{list_all, list_any};
ghost use Rattle.hp_tree.specs.declared.term.Term.{out-Term};
ghost use Rattle.hp_tree.specs.declared.problem.Atom.{Atom as atom_of};
ghost use Rattle.hp_norm.specs.Scopes.{function_profile};
ghost use Rattle.hp_null_guards.specs.Rules.{gives_pointer, has_guarded_sides, has_null_guard, has_null_guards, is_against_null, is_eq, is_guarded, is_ne, is_null_term, is_pointer_read};

use hp_defs::Names;
use hp_flatten::{Application, clause_applications, is_ptr};
use hp_norm::{FlatClause, same_term};
use hp_tree::{Atom, Cmp, Term};
use std::alloc::{AllocError, Global};

/// Whether each application that gives a pointer and is an argument of another application, or a side of a guard by `=` or
/// of a head by `!=`, has a null guard: against null by `!=` in the guard, or by `=` in the head. `Err` says that memory was
/// wanting.
pub fn has_null_guards(
    alloc: Global,
    names: &Names,
    clause: &FlatClause,
) -> Result<bool, AllocError>
    ensures { IfOk result (λ keeps. keeps ≡ has_null_guards names.now clause.now) }
{
    let applications = clause_applications(alloc, clause)?;
    Ok(
        have_guarded_args(names, clause, applications.as_slice())
            && are_guarded_equations(names, clause, clause.guard.as_slice())
            && are_guarded_inequations(names, clause, clause.head.as_slice()),
    )
}

/// Whether pointers that are arguments of applications have null guards.
fn have_guarded_args(names: &Names, clause: &FlatClause, applications: &[Application]) -> bool
    ensures { result ≡ list_all (λ a. list_all (is_guarded names.now clause.now) a.args) applications.now }
{
    applications.iter().all(|application| are_guarded(names, clause, application.args.as_slice()))
}

/// Whether terms that are pointers that an application gives have null guards.
fn are_guarded(names: &Names, clause: &FlatClause, terms: &[Term]) -> bool
    ensures { result ≡ list_all (is_guarded names.now clause.now) terms.now }
{
    terms.iter().all(|term| is_guarded(names, clause, term))
}

/// The same of one term.
fn is_guarded(names: &Names, clause: &FlatClause, term: &Term) -> bool
    ensures { result ≡ is_guarded names.now clause.now term.now }
{
    !is_pointer_read(names, term) || has_null_guard(clause, term)
}

/// Whether a term is an application that gives a pointer.
fn is_pointer_read(names: &Names, term: &Term) -> bool
    ensures { result ≡ is_pointer_read names.now (out-Term term.now) }
{
    match term {
        Term::Apply { func, .. } => gives_pointer(names, func.as_slice()),
        Term::Number(_)
        | Term::Null
        | Term::Name(_)
        | Term::Add(_, _)
        | Term::Sub(_, _)
        | Term::Neg(_)
        | Term::Scale(_, _) => false,
    }
}

/// Whether a function gives a pointer.
fn gives_pointer(names: &Names, word: &[u8]) -> bool
    ensures { result ≡ gives_pointer (function_profile names.now word.now) }
{
    match names.function(word) {
        None => false,
        Some(func) => is_ptr(names.signature(func).result),
    }
}

/// Whether a clause says what to do where a term is null.
fn has_null_guard(clause: &FlatClause, term: &Term) -> bool
    ensures { result ≡ has_null_guard clause.now term.now }
{
    is_kept_from_null(term, clause.guard.as_slice()) || may_be_null(term, clause.head.as_slice())
}

/// Whether one of these atoms says that a term is not null.
fn is_kept_from_null(term: &Term, atoms: &[Atom]) -> bool
    ensures { result ≡ list_any (λ (atom : atom_of). is_ne atom.cmp && is_against_null term.now atom) atoms.now }
{
    atoms
        .iter()
        .any(|atom| is_ne(atom.cmp) && is_against_null(term, atom))
}

/// Whether one of these atoms says that a term is null.
fn may_be_null(term: &Term, atoms: &[Atom]) -> bool
    ensures { result ≡ list_any (λ (atom : atom_of). is_eq atom.cmp && is_against_null term.now atom) atoms.now }
{
    atoms
        .iter()
        .any(|atom| is_eq(atom.cmp) && is_against_null(term, atom))
}

/// Whether one side of an atom is this term, and the other one null.
fn is_against_null(term: &Term, atom: &Atom) -> bool
    ensures { result ≡ is_against_null term.now atom.now }
{
    same_term(term, &atom.left) && is_null(&atom.right)
        || is_null(&atom.left) && same_term(term, &atom.right)
}

fn is_null(term: &Term) -> bool
    ensures { result ≡ is_null_term (out-Term term.now) }
{
    match term {
        Term::Null => true,
        Term::Number(_)
        | Term::Name(_)
        | Term::Apply { .. }
        | Term::Add(_, _)
        | Term::Sub(_, _)
        | Term::Neg(_)
        | Term::Scale(_, _) => false,
    }
}

/// Whether atoms by `=` have guarded sides.
fn are_guarded_equations(names: &Names, clause: &FlatClause, atoms: &[Atom]) -> bool
    ensures { result ≡ list_all (λ (atom : atom_of). not (is_eq atom.cmp) || has_guarded_sides names.now clause.now atom) atoms.now }
{
    atoms.iter().all(|atom| !is_eq(atom.cmp) || has_guarded_sides(names, clause, atom))
}

/// Whether atoms by `!=` have guarded sides.
fn are_guarded_inequations(names: &Names, clause: &FlatClause, atoms: &[Atom]) -> bool
    ensures { result ≡ list_all (λ (atom : atom_of). not (is_ne atom.cmp) || has_guarded_sides names.now clause.now atom) atoms.now }
{
    atoms.iter().all(|atom| !is_ne(atom.cmp) || has_guarded_sides(names, clause, atom))
}

/// Whether both sides of an atom are guarded.
fn has_guarded_sides(names: &Names, clause: &FlatClause, atom: &Atom) -> bool
    ensures { result ≡ has_guarded_sides names.now clause.now atom.now }
{
    is_guarded(names, clause, &atom.left) && is_guarded(names, clause, &atom.right)
}

fn is_eq(cmp: Cmp) -> bool
    ensures { result ≡ is_eq cmp }
{
    match cmp {
        Cmp::Eq => true,
        Cmp::Le | Cmp::Lt | Cmp::Ne | Cmp::Ge | Cmp::Gt => false,
    }
}

fn is_ne(cmp: Cmp) -> bool
    ensures { result ≡ is_ne cmp }
{
    match cmp {
        Cmp::Ne => true,
        Cmp::Le | Cmp::Lt | Cmp::Eq | Cmp::Ge | Cmp::Gt => false,
    }
}
