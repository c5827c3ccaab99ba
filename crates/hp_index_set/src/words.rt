//! The words of names, with those of the variables of a clause behind them.

ghost use Rattle.std.specs.Prelude.{◌≡◌, ◌<◌, ◌^◌, length, map, IfOk, OnOk};
ghost use Rattle.hp_defs.specs.Names.{constant_name};
ghost use Rattle.hp_terms.specs.Words.{numbered};
ghost use Rattle.hp_norm.specs.Flat.{IsFlat};
ghost use Rattle.hp_norm.specs.Testing.{with_words};
ghost use Rattle.hp_index_set.specs.IndexSet.{clause_words, var_words};

use hp_defs::{Constant, Names, word_of};
use hp_names::NameIndex;
use hp_norm::FlatClause;
use hp_tree::Var;
use std::alloc::{AllocError, Global};

/// The most variables for which there is room.
const MOST: usize = 1 << 26;

/// The words of names and of the variables of a clause. `Err` says that memory was wanting; it comes too where there are more
/// than 2^26 variables.
pub fn clause_words(
    alloc: Global,
    names: &Names,
    clause: &FlatClause,
) -> Result<NameIndex, AllocError>
    requires flat { IsFlat names.now clause.now }
    ensures words { IfOk result (λ words. words ≡ clause_words names.now clause.now) }
    ensures few { IfOk result (λ words. length words < 2 ^ 28) }
{
    if clause.vars.len() > MOST {
        return Err(AllocError);
    }
    let mut words = NameIndex::new(alloc);
    add_constants(alloc, &mut words, names.constants())?;
    add_numbered(alloc, &mut words, names.definitions().len())?;
    add_variables(alloc, &mut words, clause.vars.as_slice())?;
    Ok(words)
}

/// Adds the words of constants that are not there yet.
fn add_constants(
    alloc: Global,
    words: &mut NameIndex,
    constants: &[Constant],
) -> Result<(), AllocError>
    ensures { OnOk result (words.new ≡ with_words words.old (map constant_name constants.now)) }
{
    for constant in constants {
        words.insert(alloc, constant.name.as_slice())?;
    }
    Ok(())
}

/// Adds the words of so many definitions that are not there yet.
fn add_numbered(alloc: Global, words: &mut NameIndex, count: usize) -> Result<(), AllocError>
    requires { count < 2 ^ 28 }
    ensures { OnOk result (words.new ≡ with_words words.old (numbered 1 count)) }
{
    for at in 0..count {
        let word = word_of(alloc, at as u64 + 1)?;
        words.insert(alloc, word.as_slice())?;
    }
    Ok(())
}

/// Adds the words of variables that are not there yet.
fn add_variables(alloc: Global, words: &mut NameIndex, vars: &[Var]) -> Result<(), AllocError>
    ensures { OnOk result (words.new ≡ with_words words.old (var_words vars.now)) }
{
    for var in vars {
        words.insert(alloc, var.name.as_slice())?;
    }
    Ok(())
}
