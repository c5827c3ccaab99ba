//! The rule on the applications of clauses over arrays: arrays are read at variables.

ghost use Rattle.std.specs.Prelude.{◌≡◌, IfOk};
ghost use Rattle.std.specs.List.{list_all};
ghost use Rattle.hp_tree.specs.declared.term.Term.{out-Term};
ghost use Rattle.hp_index_set.specs.Rules.{is_no_pointer, is_read, is_variable_term, reads_at_variables};

use hp_defs::Names;
use hp_flatten::{Application, clause_applications, is_ptr};
use hp_norm::{FlatClause, clause_sort, is_variable};
use hp_tree::{Atom, Term, Var};
use std::alloc::{AllocError, Global};

/// Whether each application in a clause has one argument, which is a variable, and no atom is between pointers. `Err` says that
/// memory was wanting.
pub fn reads_at_variables(
    alloc: Global,
    names: &Names,
    clause: &FlatClause,
) -> Result<bool, AllocError>
    ensures { IfOk result (λ keeps. keeps ≡ reads_at_variables names.now clause.now) }
{
    let applications = clause_applications(alloc, clause)?;
    Ok(
        are_reads(clause.vars.as_slice(), applications.as_slice())
            && are_no_pointers(names, clause, clause.guard.as_slice())
            && are_no_pointers(names, clause, clause.head.as_slice()),
    )
}

/// Whether applications are at variables.
fn are_reads(vars: &[Var], applications: &[Application]) -> bool
    ensures { result ≡ list_all (λ a. is_read vars.now a.args) applications.now }
{
    applications
        .iter()
        .all(|application| is_read(vars, application.args.as_slice()))
}

/// Whether there is one argument, which is a variable.
fn is_read(vars: &[Var], args: &[Term]) -> bool
    ensures { result ≡ is_read vars.now args.now }
{
    args.len() == 1 && is_variable_term(vars, &args[0])
}

/// Whether a term is a variable.
fn is_variable_term(vars: &[Var], term: &Term) -> bool
    ensures { result ≡ is_variable_term vars.now (out-Term term.now) }
{
    match term {
        Term::Name(word) => is_variable(vars, word.as_slice()),
        Term::Number(_)
        | Term::Null
        | Term::Apply { .. }
        | Term::Add(_, _)
        | Term::Sub(_, _)
        | Term::Neg(_)
        | Term::Scale(_, _) => false,
    }
}

/// Whether no atom is between pointers.
fn are_no_pointers(names: &Names, clause: &FlatClause, atoms: &[Atom]) -> bool
    ensures { result ≡ list_all (is_no_pointer names.now clause.now) atoms.now }
{
    atoms.iter().all(|atom| is_no_pointer(names, clause, atom))
}

/// The same of one atom.
fn is_no_pointer(names: &Names, clause: &FlatClause, atom: &Atom) -> bool
    ensures { result ≡ is_no_pointer names.now clause.now atom.now }
{
    !is_ptr(clause_sort(names, clause.vars.as_slice(), atom))
}
