//! The literals of guards, over the words of names and of arguments.

ghost use Rattle.std.specs.Prelude.{◌≡◌, ◌<◌, ◌^◌, [], ◌∷◌, ◌++◌, length, map, IfOk, OnOk};
ghost use Rattle.hp_defs.specs.Names.{constant_name};
ghost use Rattle.hp_terms.specs.Words.{numbered};
ghost use Rattle.hp_local.specs.Rows.{argument_words};
ghost use Rattle.hp_norm.specs.Testing.{with_words};
ghost use Rattle.hp_flatten.specs.Laws.{HasPlainConstants};
ghost use Rattle.hp_linear.specs.Answers.{Answers};
ghost use Rattle.hp_rules.specs.Rules.{num_rows, rows_of, rule_words};

use hp_defs::{Constant, Names, word_of};
use hp_flatten::argument_word;
use hp_linear::literals;
use hp_lit::{Lit, NumLit, Refusal};
use hp_names::NameIndex;
use hp_num::List;
use hp_tree::Atom;
use std::alloc::{AllocError, Global};

/// The words of names, and those of arguments behind them.
pub fn rule_words(alloc: Global, names: &Names) -> Result<NameIndex, AllocError>
    requires constants { HasPlainConstants names.now }
    ensures words { IfOk result (λ words. words ≡ rule_words names.now) }
    ensures few { IfOk result (λ words. length words < 2 ^ 28) }
{
    let mut words = NameIndex::new(alloc);
    add_constants(alloc, &mut words, names.constants())?;
    add_numbered(alloc, &mut words, names.definitions().len())?;
    add_arguments(alloc, &mut words)?;
    Ok(words)
}

/// Adds the words of constants that are not there yet.
fn add_constants(
    alloc: Global,
    words: &mut NameIndex,
    constants: &[Constant],
) -> Result<(), AllocError>
    ensures { OnOk result (words.new ≡ with_words words.old (map constant_name constants.now)) }
{
    for constant in constants {
        words.insert(alloc, constant.name.as_slice())?;
    }
    Ok(())
}

/// Adds the words of so many definitions that are not there yet.
fn add_numbered(alloc: Global, words: &mut NameIndex, count: usize) -> Result<(), AllocError>
    requires { count < 2 ^ 28 }
    ensures { OnOk result (words.new ≡ with_words words.old (numbered 1 count)) }
{
    for at in 0..count {
        let word = word_of(alloc, at as u64 + 1)?;
        words.insert(alloc, word.as_slice())?;
    }
    Ok(())
}

/// Adds the words of arguments that are not there yet.
fn add_arguments(alloc: Global, words: &mut NameIndex) -> Result<(), AllocError>
    ensures { OnOk result (words.new ≡ with_words words.old argument_words) }
{
    let first = argument_word(alloc, 0)?;
    let second = argument_word(alloc, 1)?;
    let third = argument_word(alloc, 2)?;
    let fourth = argument_word(alloc, 3)?;
    words.insert(alloc, first.as_slice())?;
    words.insert(alloc, second.as_slice())?;
    words.insert(alloc, third.as_slice())?;
    words.insert(alloc, fourth.as_slice())?;
    Ok(())
}

/// The literals of atoms of sort num that are to be true.
pub fn rows_of(alloc: Global, words: &NameIndex, atoms: &[Atom]) -> Result<List<NumLit>, Refusal>
    requires few { length words.now < 2 ^ 28 }
    ensures { Answers (rows_of words.now atoms.now) result }
{
    let mut lits = List::new(alloc);
    for atom in atoms {
        literals(alloc, words, true, atom, &mut lits)?;
    }
    let rows = num_rows(alloc, lits.as_slice())?;
    Ok(rows)
}

/// The literals over fractions.
fn num_rows(alloc: Global, lits: &[Lit]) -> Result<List<NumLit>, AllocError>
    ensures { IfOk result (λ rows. rows ≡ num_rows lits.now) }
{
    let mut rows = List::new(alloc);
    for lit in lits {
        add_row(alloc, lit, &mut rows)?;
    }
    Ok(rows)
}

/// Adds a literal over fractions.
fn add_row(alloc: Global, lit: &Lit, rows: &mut List<NumLit>) -> Result<(), AllocError>
    ensures { OnOk result (rows.new ≡ rows.old ++ num_rows (lit.now ∷ [])) }
{
    match lit {
        Lit::Num(row) => {
            let copy = row.copy(alloc)?;
            rows.push(copy)
        }
        Lit::Idx(_) => Ok(()),
        Lit::Ptr(_) => Ok(()),
    }
}
