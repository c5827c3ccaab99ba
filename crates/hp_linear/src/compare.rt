//! The literals that compare two linear forms: each compares a sum of whole copies of names with a whole number.

ghost use Rattle.std.specs.Prelude.{◌≡◌, ◌∷◌, [], Ok};
ghost use Rattle.hp_linear.specs.Literals.{apart_literals, compared, lin_literals, one_literal};
ghost use Rattle.hp_linear.specs.Answers.{Answers, Pushed};

use crate::lin::minus_lin;
use crate::wholes::row_of;
use hp_lit::{Lin, Lit, NumLit, Refusal, Rel};
use hp_num::List;
use hp_tree::Cmp;
use std::alloc::Global;

/// Adds the literals that compare two forms behind those that are there: for `l = r`, `l <= r` and `l < r` the literal
/// itself; `>=` and `>` exchange the sides; for `l != r` the literals `l < r` and then `r < l`.
///
/// A literal's parts are in the order of names, without a common divisor of all its numbers. `Wide` comes at the first
/// number of the computation that has a magnitude above 2^127 - 1; then nothing is added. At `Memory` the first of two
/// literals may be there, and what was there before still is.
pub fn lin_literals(
    alloc: Global,
    cmp: Cmp,
    left: &Lin,
    right: &Lin,
    lits: &mut List<Lit>,
) -> Result<(), Refusal>
    ensures { Pushed (lin_literals cmp left.now right.now) lits.old lits.new result }
{
    match cmp {
        Cmp::Le => push_one(alloc, lits, Rel::Le, left, right),
        Cmp::Lt => push_one(alloc, lits, Rel::Lt, left, right),
        Cmp::Eq => push_one(alloc, lits, Rel::Eq, left, right),
        Cmp::Ne => push_apart(alloc, lits, left, right),
        Cmp::Ge => push_one(alloc, lits, Rel::Le, right, left),
        Cmp::Gt => push_one(alloc, lits, Rel::Lt, right, left),
    }
}

/// Adds the literal that compares two forms.
fn push_one(
    alloc: Global,
    lits: &mut List<Lit>,
    rel: Rel,
    left: &Lin,
    right: &Lin,
) -> Result<(), Refusal>
    ensures { Pushed (one_literal rel left.now right.now) lits.old lits.new result }
{
    let literal = compared(alloc, rel, left, right)?;
    push(lits, literal)
}

/// Adds the two literals that say that two forms differ.
fn push_apart(alloc: Global, lits: &mut List<Lit>, left: &Lin, right: &Lin) -> Result<(), Refusal>
    ensures { Pushed (apart_literals left.now right.now) lits.old lits.new result }
{
    let less = compared(alloc, Rel::Lt, left, right)?;
    let more = compared(alloc, Rel::Lt, right, left)?;
    push(lits, less)?;
    push(lits, more)
}

/// Adds a literal at the end.
fn push(lits: &mut List<Lit>, literal: Lit) -> Result<(), Refusal>
    ensures { Pushed (Ok (literal ∷ [])) lits.old lits.new result }
{
    match lits.push(literal) {
        Ok(()) => Ok(()),
        Err(_) => Err(Refusal::Memory),
    }
}

/// The literal that compares two forms: their difference in a relation to 0, with the constant on the right.
fn compared(alloc: Global, rel: Rel, left: &Lin, right: &Lin) -> Result<Lit, Refusal>
    ensures { Answers (compared rel left.now right.now) result }
{
    let form = minus_lin(alloc, left, right)?;
    let row = row_of(alloc, &form)?;
    Ok(Lit::Num(NumLit {
        rel,
        parts: row.parts,
        bound: -row.constant,
    }))
}
