//! The instances of the clauses of a function by cases: one of each clause at each application.
ghost use Rattle.std.specs.Prelude.{◌≡◌, ◌<◌, IfOk, OnOk, length, map};
ghost use Rattle.std.specs.List.{All};
ghost use Rattle.hp_base.specs.Making.{Begins, Makes, in_turn};
ghost use Rattle.hp_norm.specs.Sound.{IsSound};
ghost use Rattle.hp_class.specs.Group.{PlanFits, plan_lines};
ghost use Rattle.hp_base.specs.Congruence.{point_of};
ghost use Rattle.hp_class.specs.Places.{points_at};
ghost use Rattle.hp_class.specs.Points.{points};
ghost use Rattle.hp_cases.specs.Cases.{FitsTuples, cases_plan, clause_lines, point_tuple};

use hp_defs::{Ground, Names};
use hp_instance::{Tuple, instantiate};
use hp_lit::{Arg, Body, Def, GroundErr};
use hp_norm::FlatClause;
use hp_num::List;
use std::alloc::{AllocError, Global};

/// Adds the line of each clause at each application of the function at a place in the order of declarations, counted from 0:
/// the arguments of the application stand for the variables. The clauses are taken in their order, and the applications in
/// the order of their making; a line shows the name of its application.
///
/// The first limit that is passed is the one that comes, with the item of the clause; at an error what was there before
/// still is.
#[tactic(auto, using(hp_base::proofs::Making::begins_trans))]
pub fn add_case_lines(
    alloc: Global,
    g: &mut Ground,
    func: u32,
    clauses: &[FlatClause],
) -> Result<(), GroundErr>
    requires known { func < length g.old.names.signatures }
    requires sound { IsSound g.old }
    requires fit { PlanFits g.old.names clauses.now (cases_plan func clauses.now g.old.names) }
    ensures made { Makes (plan_lines (cases_plan func clauses.now g.old.names)) g.old g.new result }
    ensures kept { Begins g.old g.new }
{
    let tuples = tuples_of(alloc, &g.names, func)?;
    add_instances(alloc, g, clauses, tuples.as_slice())
}

/// Adds the line of each clause at each of these tuples.
#[tactic(auto, using(hp_base::proofs::Making::begins_trans))]
fn add_instances(
    alloc: Global,
    g: &mut Ground,
    clauses: &[FlatClause],
    tuples: &[Tuple],
) -> Result<(), GroundErr>
    requires sound { IsSound g.old }
    requires fit { All (FitsTuples g.old.names tuples.now) clauses.now }
    ensures made { Makes (in_turn (clause_lines tuples.now) clauses.now) g.old g.new result }
    ensures kept { Begins g.old g.new }
{
    for clause in clauses {
        add_instances_of(alloc, g, clause, tuples)?;
    }
    Ok(())
}

/// Adds the line of a clause at each of these tuples.
#[tactic(auto, using(hp_base::proofs::Making::begins_trans))]
fn add_instances_of(
    alloc: Global,
    g: &mut Ground,
    clause: &FlatClause,
    tuples: &[Tuple],
) -> Result<(), GroundErr>
    requires sound { IsSound g.old }
    requires fit { FitsTuples g.old.names tuples.now clause.now }
    ensures made { Makes (clause_lines tuples.now clause.now) g.old g.new result }
    ensures kept { Begins g.old g.new }
    ensures sound { OnOk result (IsSound g.new) }
{
    for tuple in tuples {
        instantiate(
            alloc,
            g,
            clause,
            tuple.args.as_slice(),
            tuple.shown.as_slice(),
        )?;
    }
    Ok(())
}

/// The arguments of each application of a function, in the order of their making, with the names of the applications.
fn tuples_of(alloc: Global, names: &Names, func: u32) -> Result<List<Tuple>, AllocError>
    requires { func < length names.now.signatures }
    ensures { IfOk result (λ tuples. tuples ≡ map point_tuple (points func names.now.definitions)) }
{
    tuples_at(alloc, names.definitions(), names.of_function(func))
}

/// Those of the applications at these places.
fn tuples_at(alloc: Global, definitions: &[Def], places: &[u32]) -> Result<List<Tuple>, AllocError>
    requires { All (λ place. place < length definitions.now) places.now }
    ensures { IfOk result (λ tuples. tuples ≡ map point_tuple (points_at definitions.now places.now)) }
{
    let mut tuples = List::new(alloc);
    for place in places {
        tuples.push(tuple_of(alloc, &definitions[*place as usize])?)?;
    }
    Ok(tuples)
}

/// That of an application.
fn tuple_of(alloc: Global, definition: &Def) -> Result<Tuple, AllocError>
    ensures { IfOk result (λ tuple. tuple ≡ point_tuple (point_of definition.now)) }
{
    let mut shown = List::new(alloc);
    shown.push(Arg::Named(definition.name))?;
    let args = match &definition.body {
        Body::Apply { args, .. } => List::from_slice(alloc, args.as_slice())?,
        Body::Sum(_) => List::new(alloc),
    };
    Ok(Tuple { args, shown })
}
