//! The table of a function by cases: its points first, and then its cases with the definitions in them replaced by their
//! values.
ghost use Rattle.std.specs.Prelude.{◌≡◌, ◌<◌, ◌++◌, IfOk, OnOk, length, map};
ghost use Rattle.hp_lit.specs.Sorts.{HaveSorts};
ghost use Rattle.hp_lit.specs.Truth.{name_value};
ghost use Rattle.hp_defs.specs.Fit.{IsFitNames};
ghost use Rattle.hp_defs.specs.Names.{sorts};
ghost use Rattle.hp_local.specs.Cases.{case_row, case_table, case_term};
ghost use Rattle.hp_local.specs.Substitution.{substitute, substitute_atom};
ghost use Rattle.hp_class.specs.Frame.{facts_of};
ghost use Rattle.hp_class.specs.Small.{AreSmallIdx};
ghost use Rattle.hp_cases.specs.Cases.{table_case, word_term};

use crate::case::Case;
use hp_defs::Names;
use hp_model::{Row, Table};
use hp_num::{Frac, List, Text};
use hp_shapes::{number_term, zero};
use hp_tables::free_table;
use hp_tree::{Atom, Term};
use sqlite_items::Boxed;
use std::alloc::{AllocError, Global};

/// The table of the function at a place in the order of declarations, counted from 0: a row for each of its applications in
/// the order of their making, equal arguments once, then one for each case in their order, with its lower bound, or its upper
/// one where there is no lower one, and then 0. It asks for values of the names' sorts, of which those of sort idx have
/// magnitudes of at most 10^37. `Err` says that memory was wanting.
pub fn case_table(
    alloc: Global,
    func: u32,
    word: &Text,
    args: u8,
    cases: &[Case],
    names: &Names,
    values: &[Frac],
) -> Result<Table, AllocError>
    requires known { func < length names.now.signatures }
    requires fit { IsFitNames names.now }
    requires sorted { HaveSorts (sorts names.now) values.now }
    requires small { AreSmallIdx (sorts names.now) values.now }
    ensures { IfOk result (λ made. made ≡ case_table word.now args (facts_of func word.now names.now values.now) (map (table_case names.now values.now) cases.now)) }
{
    let mut table = free_table(alloc, func, word, args, names, values)?;
    push_rows(alloc, names, values, cases, &mut table.rows)?;
    Ok(table)
}

/// Adds the rows of cases in their order behind those that are there.
fn push_rows(
    alloc: Global,
    names: &Names,
    values: &[Frac],
    cases: &[Case],
    rows: &mut List<Row>,
) -> Result<(), AllocError>
    ensures { OnOk result (rows.new ≡ rows.old ++ map case_row (map (table_case names.now values.now) cases.now)) }
{
    for case in cases {
        rows.push(case_row(alloc, names, values, case)?)?;
    }
    Ok(())
}

/// The row of a case.
fn case_row(alloc: Global, names: &Names, values: &[Frac], case: &Case) -> Result<Row, AllocError>
    ensures { IfOk result (λ row. row ≡ case_row (table_case names.now values.now case.now)) }
{
    Ok(Row {
        guard: valued_atoms(alloc, names, values, case.guard.as_slice())?,
        value: case_term(alloc, names, values, case)?,
    })
}

/// The lower bound of a case, or the upper one where there is no lower one, or 0 where there is none.
fn case_term(alloc: Global, names: &Names, values: &[Frac], case: &Case) -> Result<Term, AllocError>
    ensures { IfOk result (λ term. term ≡ case_term (table_case names.now values.now case.now)) }
{
    match &case.low {
        Some(low) => valued(alloc, low, names, values),
        None => match &case.high {
            Some(high) => valued(alloc, high, names, values),
            None => Ok(Term::Number(zero())),
        },
    }
}

// ---- terms in tables

/// A word as it stands in a table: that of a definition becomes its value, and every other one stays.
fn word_term(alloc: Global, names: &Names, values: &[Frac], word: &Text) -> Result<Term, AllocError>
    ensures { IfOk result (λ term. term ≡ word_term names.now values.now word.now) }
{
    match names.words().position(word.as_slice()) {
        None => Ok(Term::Name(word.copy(alloc)?)),
        Some(at) => {
            if at < names.constants().len() {
                Ok(Term::Name(word.copy(alloc)?))
            } else {
                number_term(alloc, value_at(at, values))
            }
        }
    }
}

/// The value at a place, which is 0 past the end.
fn value_at(at: usize, values: &[Frac]) -> Frac
    ensures { result ≡ name_value values.now at }
{
    if at < values.len() {
        values[at]
    } else {
        zero()
    }
}

/// A term with each word as it stands in a table.
#[cycle(valued)]
fn valued(alloc: Global, term: &Term, names: &Names, values: &[Frac]) -> Result<Term, AllocError>
    ensures { IfOk result (λ made. made ≡ substitute (word_term names.now values.now) term.now) }
{
    match term {
        Term::Number(number) => Ok(Term::Number(*number)),
        Term::Null => Ok(Term::Null),
        Term::Name(word) => word_term(alloc, names, values, word),
        Term::Apply { func, args } => Ok(Term::Apply {
            func: func.copy(alloc)?,
            args: valued_all(alloc, args.as_slice(), names, values)?,
        }),
        Term::Add(left, right) => Ok(Term::Add(
            Boxed::new(alloc, valued(alloc, left.get(), names, values)?)?,
            Boxed::new(alloc, valued(alloc, right.get(), names, values)?)?,
        )),
        Term::Sub(left, right) => Ok(Term::Sub(
            Boxed::new(alloc, valued(alloc, left.get(), names, values)?)?,
            Boxed::new(alloc, valued(alloc, right.get(), names, values)?)?,
        )),
        Term::Neg(inner) => Ok(Term::Neg(Boxed::new(
            alloc,
            valued(alloc, inner.get(), names, values)?,
        )?)),
        Term::Scale(number, inner) => Ok(Term::Scale(
            *number,
            Boxed::new(alloc, valued(alloc, inner.get(), names, values)?)?,
        )),
    }
}

/// All of these terms with each word as it stands in a table, in their order.
#[cycle(valued)]
fn valued_all(
    alloc: Global,
    all: &[Term],
    names: &Names,
    values: &[Frac],
) -> Result<List<Term>, AllocError>
    ensures { IfOk result (λ made. made ≡ map (substitute (word_term names.now values.now)) all.now) }
{
    let mut made = List::new(alloc);
    for term in all {
        made.push(valued(alloc, term, names, values)?)?;
    }
    Ok(made)
}

/// An atom with each word as it stands in a table.
fn valued_atom(
    alloc: Global,
    names: &Names,
    values: &[Frac],
    atom: &Atom,
) -> Result<Atom, AllocError>
    ensures { IfOk result (λ made. made ≡ substitute_atom (word_term names.now values.now) atom.now) }
{
    Ok(Atom {
        left: valued(alloc, &atom.left, names, values)?,
        cmp: atom.cmp,
        right: valued(alloc, &atom.right, names, values)?,
    })
}

/// Atoms with each word as it stands in a table, in their order.
fn valued_atoms(
    alloc: Global,
    names: &Names,
    values: &[Frac],
    atoms: &[Atom],
) -> Result<List<Atom>, AllocError>
    ensures { IfOk result (λ made. made ≡ map (substitute_atom (word_term names.now values.now)) atoms.now) }
{
    let mut made = List::new(alloc);
    for atom in atoms {
        made.push(valued_atom(alloc, names, values, atom)?)?;
    }
    Ok(made)
}
