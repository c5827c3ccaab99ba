//! Lists of summands: their sums, as merges of two sorted lists, their negations and their multiples.

ghost use Rattle.std.specs.Prelude.{◌≡◌, ◌<◌, ◌++◌, ◌∷◌, [], map, Ok, Err, OnOk, IfOk, IfErr, length};
ghost use Rattle.hp_lit.specs.declared.refusal.Refusal.TheVariants.{Memory};
ghost use Rattle.hp_linear.specs.Lins.{copies, neg_part, plus_parts, times_parts, unless_zero};
ghost use Rattle.hp_linear.specs.Answers.{Answers, Took};

use crate::numbers::{product, sum};
use hp_lit::{LinPart, Name, Refusal};
use hp_num::{Frac, List};
use std::alloc::Global;

/// The list whose first summand was taken, or both.
#[derive(Clone, Copy)]
enum Taken {
    Left,
    Right,
    Both,
}

/// Adds a summand at the end.
pub fn push(summands: &mut List<LinPart>, name: Name, coef: Frac) -> Result<(), Refusal>
    ensures ok { OnOk result (summands.new ≡ summands.old ++ copies name coef ∷ []) }
    ensures err { IfErr result (λ refusal. refusal ≡ Memory) }
{
    match summands.push(LinPart { name, coef }) {
        Ok(()) => Ok(()),
        Err(_) => Err(Refusal::Memory),
    }
}

/// Adds a summand at the end, unless its coefficient is 0.
fn push_unless_zero(summands: &mut List<LinPart>, name: Name, coef: Frac) -> Result<(), Refusal>
    ensures ok { OnOk result (summands.new ≡ summands.old ++ unless_zero name coef) }
    ensures err { IfErr result (λ refusal. refusal ≡ Memory) }
{
    if coef.is_zero() {
        Ok(())
    } else {
        push(summands, name, coef)
    }
}

/// Adds the one of two summands that has the lesser name, or their sum where the name is one.
fn take(summands: &mut List<LinPart>, left: &LinPart, right: &LinPart) -> Result<Taken, Refusal>
    ensures { Took left.now right.now summands.old summands.new result }
{
    if left.name.0 < right.name.0 {
        push(summands, left.name, left.coef)?;
        Ok(Taken::Left)
    } else if right.name.0 < left.name.0 {
        push(summands, right.name, right.coef)?;
        Ok(Taken::Right)
    } else {
        let coef = sum(left.coef, right.coef)?;
        push_unless_zero(summands, left.name, coef)?;
        Ok(Taken::Both)
    }
}

/// Adds summands in their order.
fn push_all(summands: &mut List<LinPart>, more: &[LinPart]) -> Result<(), Refusal>
    ensures ok { OnOk result (summands.new ≡ summands.old ++ more.now) }
    ensures err { IfErr result (λ refusal. refusal ≡ Memory) }
{
    for summand in more {
        push(summands, summand.name, summand.coef)?;
    }
    Ok(())
}

/// The sum of two lists in which the names rise.
pub fn merged(alloc: Global, left: &[LinPart], right: &[LinPart]) -> Result<List<LinPart>, Refusal>
    ensures { Answers (plus_parts left.now right.now) result }
{
    let mut all = List::new(alloc);
    let mut i = 0;
    let mut j = 0;
    while i < left.len() && j < right.len() {
        match take(&mut all, &left[i], &right[j])? {
            Taken::Left => i += 1,
            Taken::Right => j += 1,
            Taken::Both => {
                i += 1;
                j += 1;
            }
        }
    }
    push_all(&mut all, &left[i..])?;
    push_all(&mut all, &right[j..])?;
    Ok(all)
}

/// So many copies of each summand, without those that become 0.
pub fn multiplied(
    alloc: Global,
    number: Frac,
    summands: &[LinPart],
) -> Result<List<LinPart>, Refusal>
    ensures { Answers (times_parts number summands.now) result }
{
    let mut all = List::new(alloc);
    for summand in summands {
        let coef = product(number, summand.coef)?;
        push_unless_zero(&mut all, summand.name, coef)?;
    }
    Ok(all)
}

/// Each summand with its sign turned.
pub fn negated(alloc: Global, summands: &[LinPart]) -> Result<List<LinPart>, Refusal>
    ensures ok { IfOk result (λ all. all ≡ map neg_part summands.now) }
    ensures err { IfErr result (λ refusal. refusal ≡ Memory) }
{
    let mut all = List::new(alloc);
    for summand in summands {
        push(&mut all, summand.name, summand.coef.negated())?;
    }
    Ok(all)
}
