//! The rule on the guards of clauses over arrays: variables are indexes, and what is said of them there are bounds.

ghost use Rattle.std.specs.Prelude.{◌≡◌, ◌&&◌, ◌<◌, ◌^◌, length, true, IfOk};
ghost use Rattle.std.specs.List.{All, list_all};
ghost use Rattle.hp_terms.specs.Weight.{IsLightAtom};
ghost use Rattle.hp_index.specs.Literals.{literals};
ghost use Rattle.hp_norm.specs.Flat.{IsFlat};
ghost use Rattle.hp_flatten.specs.Sorts.{is_idx};
ghost use Rattle.hp_index_set.specs.IndexSet.{clause_words};
ghost use Rattle.hp_index_set.specs.Rules.{has_index_guards, has_variable, is_bounded, is_bounded_literal, is_convex, is_guard, is_head, is_index_guard};

use crate::literals::{index_literals, is_variable};
use crate::words::clause_words;
use hp_defs::Names;
use hp_flatten::is_idx;
use hp_lit::{IdxLit, Lit};
use hp_names::NameIndex;
use hp_norm::{FlatClause, clause_sort, mentions};
use hp_tree::{Atom, Cmp, Var};
use std::alloc::{AllocError, Global};

/// Whether all variables of a clause are indexes, and atoms between indexes in which one occurs stand in the guard and bound
/// it: not by `!=`, and after collecting by a constant or a number, or by another variable with nothing added. `Err` says that
/// memory was wanting.
pub fn has_index_guards(
    alloc: Global,
    names: &Names,
    clause: &FlatClause,
) -> Result<bool, AllocError>
    requires flat { IsFlat names.now clause.now }
    ensures { IfOk result (λ keeps. keeps ≡ has_index_guards names.now clause.now) }
{
    if !are_indexes(clause.vars.as_slice()) {
        return Ok(false);
    }
    let words = clause_words(alloc, names, clause)?;
    if !are_guards(alloc, names, clause, &words, clause.guard.as_slice())? {
        return Ok(false);
    }
    Ok(are_heads(names, clause, clause.head.as_slice()))
}

/// Whether variables are of sort idx.
fn are_indexes(vars: &[Var]) -> bool
    ensures { result ≡ list_all (λ v. is_idx v.sort) vars.now }
{
    vars.iter().all(|var| is_idx(var.sort))
}

/// Whether atoms of the head that are between indexes have no variable.
fn are_heads(names: &Names, clause: &FlatClause, atoms: &[Atom]) -> bool
    ensures { result ≡ list_all (is_head names.now clause.now) atoms.now }
{
    atoms.iter().all(|atom| is_head(names, clause, atom))
}

/// The same of one atom.
fn is_head(names: &Names, clause: &FlatClause, atom: &Atom) -> bool
    ensures { result ≡ is_head names.now clause.now atom.now }
{
    let vars = clause.vars.as_slice();
    !is_idx(clause_sort(names, vars, atom)) || !has_variable(vars, atom)
}

/// Whether a variable occurs in an atom.
fn has_variable(vars: &[Var], atom: &Atom) -> bool
    ensures { result ≡ has_variable vars.now atom.now }
{
    mentions(vars, &atom.left) || mentions(vars, &atom.right)
}

/// Whether atoms of the guard that are between indexes bound their variables.
fn are_guards(
    alloc: Global,
    names: &Names,
    clause: &FlatClause,
    words: &NameIndex,
    atoms: &[Atom],
) -> Result<bool, AllocError>
    requires words { words.now ≡ clause_words names.now clause.now }
    requires few { length words.now < 2 ^ 28 }
    requires light { All IsLightAtom atoms.now }
    ensures { IfOk result (λ keep. keep ≡ list_all (is_guard names.now clause.now) atoms.now) }
{
    for atom in atoms {
        if !is_guard(alloc, names, clause, words, atom)? {
            return Ok(false);
        }
    }
    Ok(true)
}

/// The same of one atom.
fn is_guard(
    alloc: Global,
    names: &Names,
    clause: &FlatClause,
    words: &NameIndex,
    atom: &Atom,
) -> Result<bool, AllocError>
    requires words { words.now ≡ clause_words names.now clause.now }
    requires few { length words.now < 2 ^ 28 }
    requires light { IsLightAtom atom.now }
    ensures { IfOk result (λ keeps. keeps ≡ is_guard names.now clause.now atom.now) }
{
    if is_idx(clause_sort(names, clause.vars.as_slice(), atom)) {
        is_index_guard(alloc, names, clause, words, atom)
    } else {
        Ok(true)
    }
}

/// The same of an atom between indexes.
fn is_index_guard(
    alloc: Global,
    names: &Names,
    clause: &FlatClause,
    words: &NameIndex,
    atom: &Atom,
) -> Result<bool, AllocError>
    requires words { words.now ≡ clause_words names.now clause.now }
    requires few { length words.now < 2 ^ 28 }
    requires light { IsLightAtom atom.now }
    ensures { IfOk result (λ keeps. keeps ≡ is_index_guard names.now clause.now atom.now) }
{
    let occurs = has_variable(clause.vars.as_slice(), atom);
    if occurs {
        is_bounded_atom(alloc, names.count(), words, atom)
    } else {
        Ok(true)
    }
}

/// Whether an atom is not `!=`, and each of its literals over so many names, with variables behind them, bounds variables.
fn is_bounded_atom(
    alloc: Global,
    names: u64,
    words: &NameIndex,
    atom: &Atom,
) -> Result<bool, AllocError>
    requires few { length words.now < 2 ^ 28 }
    requires light { IsLightAtom atom.now }
    ensures { IfOk result (λ keeps. keeps ≡ (is_convex atom.now.cmp && list_all (is_bounded_literal names) (literals words.now true atom.now))) }
{
    let lits = index_literals(alloc, words, atom)?;
    Ok(is_convex(atom.cmp) && are_bounded(names, lits.as_slice()))
}

/// Whether a relation leaves no gap: all but `!=`.
pub fn is_convex(cmp: Cmp) -> bool
    ensures { result ≡ is_convex cmp }
{
    match cmp {
        Cmp::Ne => false,
        Cmp::Le | Cmp::Lt | Cmp::Eq | Cmp::Ge | Cmp::Gt => true,
    }
}

/// Whether literals over so many names, with variables behind them, bound variables.
fn are_bounded(names: u64, lits: &[Lit]) -> bool
    ensures { result ≡ list_all (is_bounded_literal names) lits.now }
{
    lits.iter().all(|lit| is_bounded_literal(names, lit))
}

/// The same of one literal.
fn is_bounded_literal(names: u64, lit: &Lit) -> bool
    ensures { result ≡ is_bounded_literal names lit.now }
{
    match lit {
        Lit::Idx(row) => is_bounded(
            is_variable(names, row.left),
            is_variable(names, row.right),
            *row,
        ),
        Lit::Num(_) | Lit::Ptr(_) => false,
    }
}

/// The same by which sides are variables: two of them are compared with nothing added.
fn is_bounded(left: bool, right: bool, row: IdxLit) -> bool
    ensures { result ≡ is_bounded left right row }
{
    match (left, right) {
        (true, true) => row.bound == 0,
        (true, false) | (false, true) => true,
        (false, false) => false,
    }
}
