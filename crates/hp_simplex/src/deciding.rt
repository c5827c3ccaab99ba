//! The decision: the simplex, the relaxation where that gives up, the checks of their answers, and the descent where there
//! is none.
ghost use Rattle.std.specs.Prelude.{◌≡◌, IfOk, IfSome, map};
ghost use Rattle.hp_descent.specs.Answers.{Decides};
ghost use Rattle.hp_descent.specs.Columns.{AreNumFit, columns};
ghost use Rattle.hp_simplex.specs.Checks.{IsRight};

use crate::bounds::bounds_of;
use crate::checks::{Attempt, checked_shares, checked_values};
use crate::conflict::shares_of;
use crate::halt::Halt;
use crate::relaxing::relax;
use crate::search::{Outcome, search};
use crate::solution::numbers_of;
use crate::tableau::tableau_of;
use hp_descent::{DescentErr, NumAnswer, columns_of};
use hp_lit::{Name, NameValue, NumLit, Share};
use hp_num::{Frac, List};
use std::alloc::{AllocError, Global};

/// Whether some values of the names make all literals true.
///
/// `Point` has one value for each name that occurs in the literals, in rising order of names. `Farkas` has multipliers
/// of literals, which count from 1 and rise: the left sides add to nothing, and the bounds to less than 0, or to 0 with
/// a strict literal among those taken. These come from the simplex. Where it gives up, since a number passes 2^127 - 1
/// or more pivots are made than 50 for each row and column, values with short numbers are looked for by relaxation. Where
/// none are found, or where the checks don't let an answer through, the answer is that of `hp_descent::decide`, whose time
/// may be exponential: `DescentErr::Strain` comes only from there.
/// `DescentErr::Memory` says that memory was wanting. Nothing is left behind. It asks for literals that
/// `hp_descent::are_fit` takes.
pub fn decide(alloc: Global, lits: &[NumLit]) -> Result<NumAnswer, DescentErr>
    requires { AreNumFit lits.now }
    ensures { Decides lits.now result }
{
    match attempt(alloc, lits)? {
        Attempt::Point(values) => Ok(NumAnswer::Point(values)),
        Attempt::Farkas(shares) => Ok(NumAnswer::Farkas(shares)),
        Attempt::Unknown => hp_descent::decide(alloc, lits),
    }
}

/// What the simplex found.
#[derive(Drop)]
enum Found {
    /// Values of the names, in rising order of names.
    Numbers(Vec<Frac>),
    Shares(List<Share>),
}

/// As `decide`, but for the descent: `Unknown` where simplex and relaxation give up, or where the checks don't let their
/// answer through. The time is that of the pivots and reflections, whatever the literals. `Err` says that memory was
/// wanting.
pub fn attempt(alloc: Global, lits: &[NumLit]) -> Result<Attempt, AllocError>
    ensures { IfOk result (λ attempt. IsRight lits.now attempt) }
{
    let names = columns_of(alloc, lits)?;
    match simplex(alloc, &names, lits) {
        Ok(Found::Numbers(numbers)) => point_of(alloc, &names, &numbers, lits),
        Ok(Found::Shares(shares)) => checked_shares(alloc, shares, lits),
        Err(Halt::Unknown) => relaxed(alloc, &names, lits),
        Err(Halt::Memory) => Err(AllocError),
    }
}

/// The answer of the relaxation, where it has one that the checks let through.
fn relaxed(alloc: Global, names: &[u32], lits: &[NumLit]) -> Result<Attempt, AllocError>
    requires { names.now ≡ columns lits.now }
    ensures { IfOk result (λ attempt. IsRight lits.now attempt) }
{
    match relax(alloc, names, lits) {
        Ok(numbers) => point_of(alloc, names, &numbers, lits),
        Err(Halt::Unknown) => Ok(Attempt::Unknown),
        Err(Halt::Memory) => Err(AllocError),
    }
}

/// The numbers as values of the names, where every literal is true at them.
fn point_of(
    alloc: Global,
    names: &[u32],
    numbers: &[Frac],
    lits: &[NumLit],
) -> Result<Attempt, AllocError>
    requires { names.now ≡ columns lits.now }
    ensures { IfOk result (λ attempt. IsRight lits.now attempt) }
{
    match named(alloc, names, numbers)? {
        Some(values) => Ok(checked_values(values, lits)),
        None => Ok(Attempt::Unknown),
    }
}

/// The simplex over the literals' tableau. Nothing is claimed of what it finds.
fn simplex(alloc: Global, names: &[u32], lits: &[NumLit]) -> Result<Found, Halt> {
    let bounds = bounds_of(alloc, names.len(), lits)?;
    let mut tableau = tableau_of(alloc, names, lits)?;
    match search(alloc, &bounds, &mut tableau)? {
        Outcome::Within => Ok(Found::Numbers(numbers_of(alloc, &bounds, &tableau)?)),
        Outcome::Conflict { at, way } => match tableau.rows.get(at) {
            Some(row) => Ok(Found::Shares(shares_of(alloc, &bounds, row, way)?)),
            None => Err(Halt::Unknown),
        },
    }
}

/// Each name with its value, in the order of the names, where none is wanting.
fn named(
    alloc: Global,
    names: &[u32],
    numbers: &[Frac],
) -> Result<Option<List<NameValue>>, AllocError>
    ensures { IfOk result (λ found. IfSome found (λ values. map (λ nv. nv.name.0) values ≡ names.now)) }
{
    let mut values = List::new(alloc);
    for at in 0..names.len() {
        match numbers.get(at) {
            Some(number) => values.push(NameValue {
                name: Name(names[at]),
                value: *number,
            })?,
            None => return Ok(None),
        }
    }
    Ok(Some(values))
}
