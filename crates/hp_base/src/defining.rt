//! Definitions, found by a hash or made, and the lines that say what sums are.

ghost use Rattle.std.specs.Prelude.{◌≡◌, None, IfOk};
ghost use Rattle.std.specs.List.{All};
ghost use Rattle.hp_lit.specs.declared.line.Body.TheVariants.{Sum};
ghost use Rattle.hp_linear.specs.Answers.{Answers};
ghost use Rattle.hp_defs.specs.Made.{IsSmallArg, IsSmallBody};
ghost use Rattle.hp_defs.specs.Same.{place};
ghost use Rattle.hp_base.specs.Making.{Begins, Makes};
ghost use Rattle.hp_base.specs.Defining.{add_sum_line, definition_of, made, made_sum, sum_literals, sum_of};

use crate::limit::computed;
use crate::lines::add_line;
use hp_defs::Ground;
use hp_linear::{lin_literals, named_lin};
use hp_lit::{Arg, Body, GroundErr, Lin, Line, Lit, Name, Origin, Refusal, many_names};
use hp_num::List;
use hp_tree::{Cmp, MOST_NAMES};
use std::alloc::{AllocError, Global};

/// A new definition, where there may be one more name.
#[tactic(auto, using(crate::proofs::Making::begins_same, crate::proofs::Making::begins_same_names))]
fn make(g: &mut Ground, body: Body) -> Result<Name, GroundErr>
    requires small { IsSmallBody body }
    requires fresh { place body g.old.names.definitions ≡ None }
    ensures made { Makes (made body) g.old g.new result }
    ensures kept { Begins g.old g.new }
{
    if g.names.count() < MOST_NAMES as u64 {
        let name = g.names.add(body)?;
        Ok(name)
    } else {
        Err(GroundErr::Limit(many_names()))
    }
}

/// The name of the definition of a function, by its place in the order of declarations from 0, at arguments: found, or made
/// behind those that are there. Names are limited to 4,000, constants and definitions together; at an error what was there
/// before still is. It asks for whole numbers in arguments of magnitudes of at most 2 * 10^24.
pub fn definition(
    alloc: Global,
    g: &mut Ground,
    func: u32,
    args: List<Arg>,
) -> Result<Name, GroundErr>
    requires { All IsSmallArg args }
    ensures made { Makes (definition_of func args) g.old g.new result }
    ensures kept { Begins g.old g.new }
{
    let body = Body::Apply { func, args };
    match g.names.find(alloc, &body)? {
        Some(name) => Ok(name),
        None => make(g, body),
    }
}

/// An equal sum.
fn copied(alloc: Global, lin: &Lin) -> Result<Lin, AllocError>
    ensures { IfOk result (λ copy. copy ≡ lin.now) }
{
    Ok(Lin {
        parts: List::from_slice(alloc, lin.parts.as_slice())?,
        rest: lin.rest,
    })
}

/// The literal that says that a name is a sum.
fn sum_literals(alloc: Global, name: Name, lin: &Lin) -> Result<List<Lit>, Refusal>
    ensures { Answers (sum_literals name lin.now) result }
{
    let mut lits = List::new(alloc);
    let left = named_lin(alloc, name)?;
    lin_literals(alloc, Cmp::Eq, &left, lin, &mut lits)?;
    Ok(lits)
}

/// Adds the line that says that a name is a sum.
#[tactic(auto, using(crate::proofs::Making::begins_same, crate::proofs::Making::begins_trans))]
fn add_sum_line(
    alloc: Global,
    g: &mut Ground,
    item: u32,
    lin: &Lin,
    name: Name,
) -> Result<(), GroundErr>
    ensures made { Makes (add_sum_line item lin.now name) g.old g.new result }
    ensures kept { Begins g.old g.new }
{
    let lits = computed(item, sum_literals(alloc, name, lin))?;
    let origin = Origin::SumOf { name };
    add_line(g, Line { lits, origin })
}

/// A new definition of a sum, with its line.
#[tactic(auto, using(crate::proofs::Making::begins_same, crate::proofs::Making::begins_trans))]
fn make_sum(
    alloc: Global,
    g: &mut Ground,
    item: u32,
    lin: &Lin,
    body: Body,
) -> Result<Name, GroundErr>
    requires same { body ≡ Sum lin.now }
    requires fresh { place (Sum lin.now) g.old.names.definitions ≡ None }
    ensures made { Makes (made_sum item lin.now) g.old g.new result }
    ensures kept { Begins g.old g.new }
{
    let name = make(g, body)?;
    add_sum_line(alloc, g, item, lin, name)?;
    Ok(name)
}

/// The name of the definition of a sum: found, or made behind those that are there, with the line that says that the name is
/// the sum. First names may be too many, then a coefficient of the line too wide, with this item, counted from 1, and then
/// lines too many; at an error what was there before still is.
#[tactic(auto, using(crate::proofs::Making::begins_same, crate::proofs::Making::begins_trans))]
pub fn sum(alloc: Global, g: &mut Ground, item: u32, lin: &Lin) -> Result<Name, GroundErr>
    ensures made { Makes (sum_of item lin.now) g.old g.new result }
    ensures kept { Begins g.old g.new }
{
    let body = Body::Sum(copied(alloc, lin)?);
    match g.names.find(alloc, &body)? {
        Some(found) => Ok(found),
        None => make_sum(alloc, g, item, lin, body),
    }
}
