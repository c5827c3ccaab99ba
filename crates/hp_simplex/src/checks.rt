//! The checks of an answer, on which the promise of this crate rests.
ghost use Rattle.std.specs.Prelude.{◌≡◌, List, IfOk, map, true};
ghost use Rattle.hp_lit.specs.declared.literal.Lit.TheVariants.{Num};
ghost use Rattle.hp_descent.specs.Columns.{columns};
ghost use Rattle.hp_simplex.specs.Checks.{IsRight, MeetAll};

use hp_descent::{are_fit, holds_among};
use hp_farkas::check_num;
use hp_lit::{Lit, NameValue, NumLit, Share};
use hp_num::List;
use std::alloc::{AllocError, Global};

/// An answer that was checked, or none.
#[derive(Drop)]
pub enum Attempt {
    /// A value for each name that occurs in the literals, in rising order of names, at which all literals are true.
    Point(List<NameValue>),
    /// Multipliers of literals, which count from 1 and rise, that add to nothing below 0.
    Farkas(List<Share>),
    Unknown,
}

/// The values, where every literal is true at them.
pub fn checked_values(values: List<NameValue>, lits: &[NumLit]) -> Attempt
    requires { map (λ nv. nv.name.0) values ≡ columns lits.now }
    ensures { IsRight lits.now result }
{
    if satisfies(values.as_slice(), lits) {
        Attempt::Point(values)
    } else {
        Attempt::Unknown
    }
}

/// The shares, where they add to nothing below 0.
pub fn checked_shares(
    alloc: Global,
    shares: List<Share>,
    lits: &[NumLit],
) -> Result<Attempt, AllocError>
    ensures { IfOk result (λ attempt. IsRight lits.now attempt) }
{
    let path = copies(alloc, lits)?;
    match check_num(path.as_slice(), shares.as_slice()) {
        Ok(true) => Ok(Attempt::Farkas(shares)),
        Ok(false) | Err(_) => Ok(Attempt::Unknown),
    }
}

/// Whether every literal is true at these values. A number that passes 2^127 - 1, and literals that
/// `hp_descent::are_fit` doesn't take, are answered with `false`.
fn satisfies(values: &[NameValue], lits: &[NumLit]) -> bool
    requires { map (λ nv. nv.name.0) values.now ≡ columns lits.now }
    ensures { result ≡ true → MeetAll values.now lits.now }
{
    if !are_fit(lits) {
        return false;
    }
    for at in 0..lits.len() {
        let Ok(true) = holds_among(values, &lits[at]) else {
            return false;
        };
    }
    true
}

/// Copies of the literals.
fn copies(alloc: Global, lits: &[NumLit]) -> Result<List<Lit>, AllocError>
    ensures { IfOk result (λ copies. copies ≡ map Num lits.now) }
{
    let mut copies = List::new(alloc);
    for at in 0..lits.len() {
        copies.push(Lit::Num(lits[at].copy(alloc)?))?;
    }
    Ok(copies)
}
