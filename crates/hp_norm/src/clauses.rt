//! The line of a clause without variables: its applications are named first, and then its literals are formed.

ghost use Rattle.std.specs.List.{All};
ghost use Rattle.hp_terms.specs.Weight.{IsLightAtom, IsLightClause};
ghost use Rattle.hp_base.specs.Making.{Begins, Makes};
ghost use Rattle.hp_norm.specs.Lines.{flat_line, ground_line};

use crate::literals::flat_literals;
use crate::naming::named_atoms;
use hp_base::{add_line, computed};
use hp_defs::Ground;
use hp_lit::{GroundErr, Line, Origin};
use hp_tree::{Atom, Clause};
use std::alloc::Global;

/// Adds the line of the clause of this number, which is this item.
#[tactic(auto, using(hp_base::proofs::Making::begins_same, hp_base::proofs::Making::begins_trans, crate::proofs::Loads::flats_are_light))]
pub fn ground_line(
    alloc: Global,
    ground: &mut Ground,
    item: u32,
    number: u32,
    clause: &Clause,
) -> Result<(), GroundErr>
    requires { IsLightClause clause.now }
    ensures made { Makes (ground_line item number clause.now) ground.old ground.new result }
    ensures kept { Begins ground.old ground.new }
{
    let guard = named_atoms(alloc, ground, item, clause.guard.as_slice())?;
    let head = named_atoms(alloc, ground, item, clause.head.as_slice())?;
    flat_line(
        alloc,
        ground,
        item,
        number,
        guard.as_slice(),
        head.as_slice(),
    )
}

/// Adds the line of these atoms, whose applications are named.
#[tactic(auto, using(hp_base::proofs::Making::begins_same, hp_base::proofs::Making::begins_trans))]
fn flat_line(
    alloc: Global,
    ground: &mut Ground,
    item: u32,
    number: u32,
    guard: &[Atom],
    head: &[Atom],
) -> Result<(), GroundErr>
    requires guard { All IsLightAtom guard.now }
    requires head { All IsLightAtom head.now }
    ensures made { Makes (flat_line item number guard.now head.now) ground.old ground.new result }
    ensures kept { Begins ground.old ground.new }
{
    let lits = computed(item, flat_literals(alloc, &ground.names, guard, head))?;
    let origin = Origin::Ground { clause: number };
    add_line(ground, Line { lits, origin })
}
