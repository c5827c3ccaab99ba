//! The bounds that guards put on variables.

ghost use Rattle.std.specs.Prelude.{◌≡◌, ◌<◌, ◌^◌, length, true, OnOk};
ghost use Rattle.std.specs.List.{All, flat_map};
ghost use Rattle.hp_terms.specs.Weight.{IsLightAtom};
ghost use Rattle.hp_lit.specs.Fit.{IsSmallBound};
ghost use Rattle.hp_index.specs.Fit.{HasSmallBound};
ghost use Rattle.hp_index.specs.Literals.{literals};
ghost use Rattle.hp_norm.specs.Flat.{IsFlat};
ghost use Rattle.hp_index_set.specs.IndexSet.{atom_bounds, bounds_between, clause_words, guard_bounds, is_variable, literal_bounds, with_indexes};

use crate::indexes::add_index;
use crate::literals::{index_literals, is_variable};
use crate::words::clause_words;
use hp_defs::Names;
use hp_lit::{Arg, IdxLit, Lit};
use hp_names::NameIndex;
use hp_norm::{FlatClause, clause_sort};
use hp_num::List;
use hp_tree::{Atom, Sort};
use std::alloc::{AllocError, Global};

/// Adds the bounds of all clauses that are not there yet, clause by clause. `Err` says that memory was wanting.
pub fn add_bounds(
    alloc: Global,
    names: &Names,
    clauses: &[FlatClause],
    indexes: &mut List<Arg>,
) -> Result<(), AllocError>
    requires flat { All (IsFlat names.now) clauses.now }
    ensures { OnOk result (indexes.new ≡ with_indexes indexes.old (flat_map (guard_bounds names.now) clauses.now)) }
{
    for clause in clauses {
        add_guard_bounds(alloc, names, clause, indexes)?;
    }
    Ok(())
}

/// Adds the bounds of the guard of a clause, atom by atom.
fn add_guard_bounds(
    alloc: Global,
    names: &Names,
    clause: &FlatClause,
    indexes: &mut List<Arg>,
) -> Result<(), AllocError>
    requires flat { IsFlat names.now clause.now }
    ensures { OnOk result (indexes.new ≡ with_indexes indexes.old (guard_bounds names.now clause.now)) }
{
    let words = clause_words(alloc, names, clause)?;
    add_atoms_bounds(
        alloc,
        names,
        clause,
        &words,
        clause.guard.as_slice(),
        indexes,
    )
}

/// Adds the bounds of atoms in their order.
fn add_atoms_bounds(
    alloc: Global,
    names: &Names,
    clause: &FlatClause,
    words: &NameIndex,
    atoms: &[Atom],
    indexes: &mut List<Arg>,
) -> Result<(), AllocError>
    requires words { words.now ≡ clause_words names.now clause.now }
    requires few { length words.now < 2 ^ 28 }
    requires light { All IsLightAtom atoms.now }
    ensures { OnOk result (indexes.new ≡ with_indexes indexes.old (flat_map (atom_bounds names.now clause.now) atoms.now)) }
{
    for atom in atoms {
        add_atom_bounds(alloc, names, clause, words, atom, indexes)?;
    }
    Ok(())
}

/// Adds the bounds of an atom, where it is between indexes.
fn add_atom_bounds(
    alloc: Global,
    names: &Names,
    clause: &FlatClause,
    words: &NameIndex,
    atom: &Atom,
    indexes: &mut List<Arg>,
) -> Result<(), AllocError>
    requires words { words.now ≡ clause_words names.now clause.now }
    requires few { length words.now < 2 ^ 28 }
    requires light { IsLightAtom atom.now }
    ensures { OnOk result (indexes.new ≡ with_indexes indexes.old (atom_bounds names.now clause.now atom.now)) }
{
    match clause_sort(names, clause.vars.as_slice(), atom) {
        Sort::Idx => add_index_bounds(alloc, names.count(), words, atom, indexes),
        Sort::Num | Sort::Ptr => Ok(()),
    }
}

/// Adds the bounds of the literals of an atom over so many names, with variables behind them.
fn add_index_bounds(
    alloc: Global,
    names: u64,
    words: &NameIndex,
    atom: &Atom,
    indexes: &mut List<Arg>,
) -> Result<(), AllocError>
    requires few { length words.now < 2 ^ 28 }
    requires light { IsLightAtom atom.now }
    ensures { OnOk result (indexes.new ≡ with_indexes indexes.old (flat_map (literal_bounds names) (literals words.now true atom.now))) }
{
    let lits = index_literals(alloc, words, atom)?;
    add_literal_bounds(names, lits.as_slice(), indexes)
}

/// Adds the bounds of literals in their order.
fn add_literal_bounds(names: u64, lits: &[Lit], indexes: &mut List<Arg>) -> Result<(), AllocError>
    requires small { All HasSmallBound lits.now }
    ensures { OnOk result (indexes.new ≡ with_indexes indexes.old (flat_map (literal_bounds names) lits.now)) }
{
    for lit in lits {
        add_literal_bound(names, lit, indexes)?;
    }
    Ok(())
}

/// Adds the bound of a literal between a variable and a constant or a number.
fn add_literal_bound(names: u64, lit: &Lit, indexes: &mut List<Arg>) -> Result<(), AllocError>
    requires small { HasSmallBound lit.now }
    ensures { OnOk result (indexes.new ≡ with_indexes indexes.old (literal_bounds names lit.now)) }
{
    match lit {
        Lit::Idx(row) => add_bound(
            is_variable(names, row.left),
            is_variable(names, row.right),
            *row,
            indexes,
        ),
        Lit::Num(_) | Lit::Ptr(_) => Ok(()),
    }
}

/// Adds the bound of a variable in a literal, of which these sides are variables.
fn add_bound(
    left: bool,
    right: bool,
    row: IdxLit,
    indexes: &mut List<Arg>,
) -> Result<(), AllocError>
    requires small { IsSmallBound row.bound }
    ensures { OnOk result (indexes.new ≡ with_indexes indexes.old (bounds_between left right row)) }
{
    match (left, right) {
        (true, false) => add_index(
            indexes,
            &Arg::Index {
                base: row.right,
                offset: row.bound,
            },
        ),
        (false, true) => add_index(
            indexes,
            &Arg::Index {
                base: row.left,
                offset: -row.bound,
            },
        ),
        (true, true) | (false, false) => Ok(()),
    }
}
