//! The rule on what clauses over pointer fields are over.

ghost use Rattle.std.specs.Prelude.{◌≡◌};
ghost use Rattle.std.specs.List.{list_all};
ghost use Rattle.hp_flatten.specs.Sorts.{is_ptr};
ghost use Rattle.hp_null_guards.specs.Rules.{is_no_index, is_over_pointers};

use hp_defs::Names;
use hp_flatten::{is_idx, is_ptr};
use hp_norm::{FlatClause, clause_sort};
use hp_tree::{Atom, Var};

/// Whether all variables of a clause are pointers, and each atom is between numbers or between pointers.
pub fn is_over_pointers(names: &Names, clause: &FlatClause) -> bool
    ensures { result ≡ is_over_pointers names.now clause.now }
{
    are_pointers(clause.vars.as_slice())
        && are_no_indexes(names, clause, clause.guard.as_slice())
        && are_no_indexes(names, clause, clause.head.as_slice())
}

/// Whether variables are of sort ptr.
fn are_pointers(vars: &[Var]) -> bool
    ensures { result ≡ list_all (λ v. is_ptr v.sort) vars.now }
{
    vars.iter().all(|var| is_ptr(var.sort))
}

/// Whether no atom is between indexes.
fn are_no_indexes(names: &Names, clause: &FlatClause, atoms: &[Atom]) -> bool
    ensures { result ≡ list_all (is_no_index names.now clause.now) atoms.now }
{
    atoms.iter().all(|atom| is_no_index(names, clause, atom))
}

/// The same of one atom.
fn is_no_index(names: &Names, clause: &FlatClause, atom: &Atom) -> bool
    ensures { result ≡ is_no_index names.now clause.now atom.now }
{
    !is_idx(clause_sort(names, clause.vars.as_slice(), atom))
}
