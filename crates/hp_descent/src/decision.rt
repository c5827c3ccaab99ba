//! The decision: the rows of the literals, their descent, and what its answer says of the literals.
//!
//! A further number t multiplies each bound, so that a strict literal is a row that stays below its bound by 1, and the
//! values are the coordinates over t. That there are values or a combination is the transposition theorem (Motzkin,
//! Beitraege zur Theorie der linearen Ungleichungen, 1936).

ghost use Rattle.std.specs.Prelude.{◌≡◌, ◌<◌, ◌^◌, ◌-◌, ℕ, suc, IfOk, length, map, reverse};
ghost use Rattle.std.specs.List.{All};
ghost use Rattle.hp_rows.specs.Answers.{IsPoint};
ghost use Rattle.hp_rows.specs.Strain.{IsStrain};
ghost use Rattle.hp_descent.specs.Columns.{AreNumFit, columns};
ghost use Rattle.hp_descent.specs.LiteralRows.{rows_of, width_of};
ghost use Rattle.hp_descent.specs.Values.{GivesValues};
ghost use Rattle.hp_descent.specs.Answers.{Decides, DecidesChain, IsSmallPlace, IsStrained, at_of, form_of};

use crate::answer::{At, ChainAnswer, DescentErr, Form, NumAnswer, RowStrain};
use crate::columns::columns_of;
use crate::rows::rows_of;
use crate::shares::shares_of;
use hp_lit::{Name, NameValue, NumLit};
use hp_num::{Frac, List};
use hp_rows::{Answer, Fail, Place, Strain, descend, values};
use std::alloc::{AllocError, Global};

/// Whether some values of the names make all literals true.
///
/// `Point` has one value for each name that occurs in the literals, in rising order of names. `Farkas` has multipliers of
/// literals, which count from 1 and rise: the left sides add to nothing, and the bounds to less than 0, or to 0 with a
/// strict literal among those taken. `DescentErr::Strain` comes only where a number of the descent over the literals'
/// rows passes 2^127 - 1, and names the first one; `DescentErr::Memory` says that memory was wanting. Nothing is left
/// behind. The time may be exponential in the number of literals. It asks for literals that `are_fit` takes.
pub fn decide(alloc: Global, lits: &[NumLit]) -> Result<NumAnswer, DescentErr>
    requires { AreNumFit lits.now }
    ensures { Decides lits.now result }
{
    match decide_chain(alloc, lits)? {
        ChainAnswer::Point { values, chain: _ } => Ok(NumAnswer::Point(values)),
        ChainAnswer::Farkas(shares) => Ok(NumAnswer::Farkas(shares)),
    }
}

/// As `decide`, with the chain of rows whose point gives the values: row numbers count from 1, that of t first and then
/// those of the literals, and fall.
pub fn decide_chain(alloc: Global, lits: &[NumLit]) -> Result<ChainAnswer, DescentErr>
    requires { AreNumFit lits.now }
    ensures { DecidesChain lits.now result }
{
    let names = columns_of(alloc, lits)?;
    decide_over(alloc, lits, &names)
}

/// As `decide_chain`, with the names of the columns.
fn decide_over(alloc: Global, lits: &[NumLit], names: &[u32]) -> Result<ChainAnswer, DescentErr>
    requires fit { AreNumFit lits.now }
    requires columns { names.now ≡ columns lits.now }
    ensures { DecidesChain lits.now result }
{
    let rows = rows_of(alloc, names, lits)?;
    match descend(alloc, names.len() + 1, rows.as_slice()) {
        Answer::Point { chain, point } => {
            solution(alloc, lits, names, chain.as_slice(), point.as_slice())
        }
        Answer::Contradiction(times) => {
            let shares = shares_of(alloc, lits, times.as_slice())?;
            Ok(ChainAnswer::Farkas(shares))
        }
        Answer::Strain(strain) => Err(DescentErr::Strain(numbered_strain(alloc, lits, &strain)?)),
        Answer::Memory => Err(DescentErr::Memory),
    }
}

/// The values that the point of a chain gives, with the numbers of its rows.
fn solution(
    alloc: Global,
    lits: &[NumLit],
    names: &[u32],
    chain: &[usize],
    point: &[Frac],
) -> Result<ChainAnswer, DescentErr>
    requires fit { AreNumFit lits.now }
    requires columns { names.now ≡ columns lits.now }
    requires point { IsPoint (rows_of lits.now) (width_of lits.now) chain.now point.now }
    ensures { DecidesChain lits.now result }
{
    let values = values_at(alloc, lits, names, chain, point)?;
    let chain = numbered(alloc, chain)?;
    Ok(ChainAnswer::Point { chain, values })
}

/// The values that the point of a chain gives: each coordinate over that of t.
pub fn values_at(
    alloc: Global,
    lits: &[NumLit],
    names: &[u32],
    chain: &[usize],
    point: &[Frac],
) -> Result<List<NameValue>, DescentErr>
    requires fit { AreNumFit lits.now }
    requires columns { names.now ≡ columns lits.now }
    requires point { IsPoint (rows_of lits.now) (width_of lits.now) chain.now point.now }
    ensures { GivesValues lits.now (map suc chain.now) result }
{
    match values(alloc, point) {
        Ok(values) => Ok(named(alloc, names, values.as_slice())?),
        Err(Fail::Memory) => Err(DescentErr::Memory),
        Err(Fail::Wide(wide)) => {
            let chain = numbered(alloc, chain)?;
            Err(DescentErr::Strain(RowStrain {
                chain,
                at: At::Point,
                form: Form::Value,
                wide,
            }))
        }
    }
}

/// Each name with its value, in the order of the names.
fn named(alloc: Global, names: &[u32], values: &[Frac]) -> Result<List<NameValue>, AllocError>
    requires { length names.now ≡ length values.now }
    ensures names { IfOk result (λ named. map (λ nv. nv.name.0) named ≡ names.now) }
    ensures values { IfOk result (λ named. map (λ nv. nv.value) named ≡ values.now) }
{
    let mut named = List::new(alloc);
    for at in 0..names.len() {
        named.push(NameValue {
            name: Name(names[at]),
            value: values[at],
        })?;
    }
    Ok(named)
}

/// The row numbers of a chain, counted from 1 in place of 0.
fn numbered(alloc: Global, chain: &[usize]) -> Result<List<u32>, AllocError>
    requires { All (λ row. row < 2 ^ 31) chain.now }
    ensures { IfOk result (λ numbers. numbers ≡ map suc chain.now) }
{
    let mut numbers = List::new(alloc);
    for row in chain {
        numbers.push(*row as u32 + 1)?;
    }
    Ok(numbers)
}

/// A strain of the literals' rows, in row numbers that count from 1.
pub fn numbered_strain(
    alloc: Global,
    lits: &[NumLit],
    strain: &Strain,
) -> Result<RowStrain, AllocError>
    requires fit { AreNumFit lits.now }
    requires strain { IsStrain (rows_of lits.now) (width_of lits.now) strain.now }
    ensures { IfOk result (λ named. IsStrained lits.now named) }
{
    let chain = numbered(alloc, strain.chain.as_slice())?;
    Ok(RowStrain {
        chain,
        at: at_of(strain.place),
        form: form_of(strain.place),
        wide: strain.wide,
    })
}

/// How a number passes.
fn form_of(place: Place) -> Form
    ensures { result ≡ form_of place }
{
    match place {
        Place::Line(_) => Form::Elimination,
        Place::Point => Form::Coordinate,
        Place::Sum(_) => Form::Sum,
        Place::Value => Form::Value,
    }
}

/// Where a number passes, in row numbers that count from 1.
fn at_of(place: Place) -> At
    requires { IsSmallPlace place }
    ensures { result ≡ at_of place }
{
    match place {
        Place::Line(row) | Place::Sum(row) => At::Row(row as u32 + 1),
        Place::Point | Place::Value => At::Point,
    }
}
