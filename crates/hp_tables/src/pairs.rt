//! The instances of a monotone clause at each ordered pair of applications.
ghost use Rattle.std.specs.Prelude.{◌≡◌, ◌<◌, [], ◌∷◌, IfOk, OnOk, length};
ghost use Rattle.std.specs.List.{All, Contains};
ghost use Rattle.hp_base.specs.Congruence.{body_args};
ghost use Rattle.hp_base.specs.Making.{Begins, Makes};
ghost use Rattle.hp_norm.specs.Sound.{IsSound};
ghost use Rattle.hp_norm.specs.Flat.{IsFlat};
ghost use Rattle.hp_class.specs.Group.{plan_lines};
ghost use Rattle.hp_class.specs.Places.{points_at};
ghost use Rattle.hp_class.specs.Points.{points};
ghost use Rattle.hp_tables.specs.Pairs.{PairsFit, first_arg, lines_below, pair_args, pair_at, pairs_plan};

use hp_defs::Ground;
use hp_instance::instantiate;
use hp_lit::{Arg, Body, GroundErr};
use hp_norm::FlatClause;
use hp_num::List;
use hp_shapes::zero;
use std::alloc::{AllocError, Global};

/// Adds the line of a flat clause at each ordered pair of different applications of the function at a place in the order of
/// declarations, counted from 0: the argument of the first application stands for the first variable where `first_lower` is
/// set, and for the second one where not. Pairs are in lexicographic order of the making of their applications, and their
/// lines show the names of both.
///
/// The first limit that is passed is the one that comes, with the item of the clause; at an error what was there before
/// still is.
#[tactic(auto, using(hp_base::proofs::Making::begins_trans))]
pub fn add_pair_lines(
    alloc: Global,
    g: &mut Ground,
    func: u32,
    clause: &FlatClause,
    first_lower: bool,
) -> Result<(), GroundErr>
    requires known { func < length g.old.names.signatures }
    requires sound { IsSound g.old }
    requires flat { IsFlat g.old.names clause.now }
    requires fit { PairsFit g.old.names clause.now first_lower (points func g.old.names.definitions) }
    ensures made { Makes (plan_lines (pairs_plan func first_lower clause.now g.old.names)) g.old g.new result }
    ensures kept { Begins g.old g.new }
{
    let places = List::from_slice(alloc, g.names.of_function(func))?;
    let places = places.as_slice();
    for lower in places {
        add_lines_below(alloc, g, clause, first_lower, *lower, places)?;
    }
    Ok(())
}

/// Adds those of the application at a place with each other one at these places.
fn add_lines_below(
    alloc: Global,
    g: &mut Ground,
    clause: &FlatClause,
    first_lower: bool,
    lower: u32,
    places: &[u32],
) -> Result<(), GroundErr>
    requires sound { IsSound g.old }
    requires flat { IsFlat g.old.names clause.now }
    requires inside { All (λ place. place < length g.old.names.definitions) places.now }
    requires lower { Contains places.now lower }
    requires fit { PairsFit g.old.names clause.now first_lower (points_at g.old.names.definitions places.now) }
    ensures made { Makes (lines_below clause.now first_lower lower places.now) g.old g.new result }
    ensures kept { Begins g.old g.new }
    ensures sound { OnOk result (IsSound g.new) }
{
    for upper in places {
        if *upper != lower {
            add_pair_line(alloc, g, clause, first_lower, lower, *upper)?;
        }
    }
    Ok(())
}

/// Adds that of the applications at two places.
fn add_pair_line(
    alloc: Global,
    g: &mut Ground,
    clause: &FlatClause,
    first_lower: bool,
    lower: u32,
    upper: u32,
) -> Result<(), GroundErr>
    requires sound { IsSound g.old }
    requires flat { IsFlat g.old.names clause.now }
    requires lower { lower < length g.old.names.definitions }
    requires upper { upper < length g.old.names.definitions }
    requires fit { PairsFit g.old.names clause.now first_lower (points_at g.old.names.definitions (lower ∷ upper ∷ [])) }
    ensures made { Makes (pair_at clause.now first_lower lower upper) g.old g.new result }
    ensures kept { Begins g.old g.new }
    ensures sound { OnOk result (IsSound g.new) }
{
    let definitions = g.names.definitions();
    let below = &definitions[lower as usize];
    let above = &definitions[upper as usize];
    let args = pair_args(
        alloc,
        first_lower,
        first_arg(&below.body),
        first_arg(&above.body),
    )?;
    let shown = both(alloc, Arg::Named(below.name), Arg::Named(above.name))?;
    instantiate(alloc, g, clause, args.as_slice(), shown.as_slice())
}

/// The first argument of an application, or 0 where there is none.
fn first_arg(body: &Body) -> Arg
    ensures { result ≡ first_arg (body_args body.now) }
{
    match body {
        Body::Apply { args, .. } => {
            if args.len() == 0 {
                Arg::Number(zero())
            } else {
                *args.get(0)
            }
        }
        Body::Sum(_) => Arg::Number(zero()),
    }
}

/// The arguments in the order of the variables.
fn pair_args(
    alloc: Global,
    first_lower: bool,
    lower: Arg,
    upper: Arg,
) -> Result<List<Arg>, AllocError>
    ensures { IfOk result (λ args. args ≡ pair_args first_lower lower upper) }
{
    if first_lower {
        both(alloc, lower, upper)
    } else {
        both(alloc, upper, lower)
    }
}

fn both(alloc: Global, first: Arg, second: Arg) -> Result<List<Arg>, AllocError>
    ensures { IfOk result (λ args. args ≡ first ∷ second ∷ []) }
{
    let mut args = List::new(alloc);
    args.push(first)?;
    args.push(second)?;
    Ok(args)
}
