//! One line of each clause at each tuple over a list of arguments.
ghost use Rattle.std.specs.Prelude.{◌≡◌, ◌<◌, IfOk, OnOk, length};
ghost use Rattle.std.specs.List.{All};
ghost use Rattle.hp_base.specs.Making.{Begins, Makes};
ghost use Rattle.hp_norm.specs.Sound.{IsSound};
ghost use Rattle.hp_class.specs.Group.{plan_lines, planned_lines};
ghost use Rattle.hp_tuple_lines.specs.TupleLines.{FitsOver, args_at, planned_over, tuples_plan};

use hp_defs::Ground;
use hp_instance::instantiate;
use hp_lit::{Arg, GroundErr};
use hp_norm::FlatClause;
use hp_num::List;
use hp_tuples::{first_tuple, next_tuple};
use std::alloc::{AllocError, Global};

/// Adds the line of each clause at each tuple over the arguments: one for each variable, which the line shows. The clauses
/// are taken in their order, and the tuples of each in lexicographic order of the places of their arguments. Tuples are made
/// one after the other.
///
/// The first limit that is passed is the one that comes, with the item of the clause; at an error what was there before
/// still is.
#[tactic(auto, using(hp_base::proofs::Making::begins_trans))]
pub fn add_tuple_lines(
    alloc: Global,
    g: &mut Ground,
    clauses: &[FlatClause],
    over: &[Arg],
) -> Result<(), GroundErr>
    requires sound { IsSound g.old }
    requires some { 0 < length over.now }
    requires fit { All (FitsOver g.old.names over.now) clauses.now }
    ensures made { Makes (plan_lines (tuples_plan over.now clauses.now)) g.old g.new result }
    ensures kept { Begins g.old g.new }
{
    for clause in clauses {
        add_lines_of(alloc, g, clause, over)?;
    }
    Ok(())
}

/// Adds the line of one clause at each tuple.
#[tactic(auto, using(hp_base::proofs::Making::begins_trans))]
fn add_lines_of(
    alloc: Global,
    g: &mut Ground,
    clause: &FlatClause,
    over: &[Arg],
) -> Result<(), GroundErr>
    requires sound { IsSound g.old }
    requires some { 0 < length over.now }
    requires fit { FitsOver g.old.names over.now clause.now }
    ensures made { Makes (planned_lines (planned_over over.now clause.now)) g.old g.new result }
    ensures kept { Begins g.old g.new }
    ensures sound { OnOk result (IsSound g.new) }
{
    let mut places = first_tuple(alloc, clause.vars.len());
    let mut more = true;
    while more {
        let args = args_at(alloc, over, places.as_slice())?;
        instantiate(alloc, g, clause, args.as_slice(), args.as_slice())?;
        more = next_tuple(&mut places, over.len());
    }
    Ok(())
}

/// The arguments at places, counted from 0.
fn args_at(alloc: Global, over: &[Arg], places: &[usize]) -> Result<List<Arg>, AllocError>
    requires { All (λ k. k < length over.now) places.now }
    ensures { IfOk result (λ args. args ≡ args_at over.now places.now) }
{
    let mut args = List::new(alloc);
    for place in places {
        args.push(over[*place])?;
    }
    Ok(args)
}
