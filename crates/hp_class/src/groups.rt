//! Groups of one class type, one after the other: what they add to a ground set, and the tables of their functions.

ghost use Rattle.std.specs.Prelude.{◌≡◌, ◌++◌, Ok, IfOk, OnOk, reverse};
ghost use Rattle.std.specs.List.{All, flat_map};
ghost use Rattle.hp_lit.specs.Sorts.{HaveSorts};
ghost use Rattle.hp_defs.specs.Fit.{IsFitNames};
ghost use Rattle.hp_defs.specs.Names.{sorts};
ghost use Rattle.hp_base.specs.Making.{Begins, Makes, in_turn};
ghost use Rattle.hp_norm.specs.Sound.{IsSound};
ghost use Rattle.hp_class.specs.Answers.{IsSlope};
ghost use Rattle.hp_class.specs.Group.{class_step};
ghost use Rattle.hp_class.specs.Laws.{AreApart, HasTurn, HasWholeTurn};
ghost use Rattle.hp_class.specs.Small.{AreSmallIdx};

use crate::class::{LocalClass, Slope};
use hp_defs::{Ground, Names};
use hp_lit::GroundErr;
use hp_model::Table;
use hp_num::{Frac, List};
use std::alloc::{AllocError, Global};

/// Why tables can't be given: a slope that can't be computed, or memory that was wanting.
#[derive(Drop)]
pub enum TablesErr {
    Slope(Slope),
    Memory,
}

/// Adds what groups need and their lines, one group after the other in this order. The limits are those of definitions,
/// coefficients and lines, in the order of making; at an error what was there before still is.
#[tactic(auto, using(hp_base::proofs::Making::begins_same, hp_base::proofs::Making::begins_trans))]
pub fn descend_groups<C: LocalClass>(
    alloc: Global,
    groups: &[C],
    g: &mut Ground,
) -> Result<(), GroundErr>
    requires lent { All (λ c. C.IsLent c g.old.names) groups.now }
    requires sound { IsSound g.old }
    ensures made { Makes (in_turn (class_step C.grow_of C.own C.plan_of) groups.now) g.old g.new result }
    ensures kept { Begins g.old g.new }
    ensures sound { OnOk result (IsSound g.new) }
    ensures turns { OnOk result (All (HasTurn C.own C.applied C.plan_of C.IsLent g.old g.new) groups.now) }
    ensures whole { OnOk result (AreApart C.own C.applied groups.now → All (HasWholeTurn C.own C.applied C.plan_of C.IsLent g.old g.new) groups.now) }
{
    for group in groups {
        descend_group(alloc, group, g)?;
    }
    Ok(())
}

/// Adds what one group needs, and its lines.
#[tactic(auto, using(hp_base::proofs::Making::begins_same, hp_base::proofs::Making::begins_trans))]
fn descend_group<C: LocalClass>(alloc: Global, group: &C, g: &mut Ground) -> Result<(), GroundErr>
    requires lent { C.IsLent group.now g.old.names }
    requires sound { IsSound g.old }
    ensures made { Makes (class_step C.grow_of C.own C.plan_of group.now) g.old g.new result }
    ensures kept { Begins g.old g.new }
    ensures sound { OnOk result (IsSound g.new) }
{
    group.grow(alloc, g)?;
    group.lines(alloc, g)
}

/// The tables of groups, one group after the other in this order, in a universe of so many pointers and at the values of the
/// names. The first group that isn't ready gives its slope, and then no group before it has one; want of memory is told
/// apart.
///
/// It asks for values of the names' sorts, of which those of sort idx have magnitudes of at most 10^37.
pub fn ascend_groups<C: LocalClass>(
    alloc: Global,
    groups: &[C],
    size: u32,
    names: &Names,
    values: &[Frac],
) -> Result<List<Table>, TablesErr>
    requires lent { All (λ c. C.IsLent c names.now) groups.now }
    requires fit { IsFitNames names.now }
    requires sorted { HaveSorts (sorts names.now) values.now }
    requires small { AreSmallIdx (sorts names.now) values.now }
    ensures tables { IfOk result (λ tables. tables ≡ flat_map (λ c. C.tables_of c size names.now values.now) groups.now) }
    ensures ready { OnOk result (All (λ c. C.Ready c names.now values.now) groups.now) }
    ensures slope { All (λ c. C.Ready c names.now values.now) groups.now → IsSlope result → ⊥ }
{
    let mut tables = List::new(alloc);
    for group in groups {
        add_tables(alloc, group, size, names, values, &mut tables)?;
    }
    Ok(tables)
}

/// Adds the tables of one group, where it is ready.
fn add_tables<C: LocalClass>(
    alloc: Global,
    group: &C,
    size: u32,
    names: &Names,
    values: &[Frac],
    tables: &mut List<Table>,
) -> Result<(), TablesErr>
    requires lent { C.IsLent group.now names.now }
    requires fit { IsFitNames names.now }
    requires sorted { HaveSorts (sorts names.now) values.now }
    requires small { AreSmallIdx (sorts names.now) values.now }
    ensures tables { OnOk result (tables.new ≡ tables.old ++ C.tables_of group.now size names.now values.now) }
    ensures ready { OnOk result (C.Ready group.now names.now values.now) }
    ensures slope { C.Ready group.now names.now values.now → IsSlope result → ⊥ }
{
    match group.ready(alloc, names, values) {
        Ok(Some(slope)) => Err(TablesErr::Slope(slope)),
        Ok(None) => match group.tables(alloc, size, names, values) {
            Ok(more) => match append(alloc, tables, more) {
                Ok(()) => Ok(()),
                Err(_) => Err(TablesErr::Memory),
            },
            Err(_) => Err(TablesErr::Memory),
        },
        Err(_) => Err(TablesErr::Memory),
    }
}

/// Adds tables behind those that are there.
#[tactic(auto, using(crate::proofs::Tables::moved_start, crate::proofs::Tables::moved_end))]
fn append(alloc: Global, tables: &mut List<Table>, more: List<Table>) -> Result<(), AllocError>
    ensures { OnOk result (tables.new ≡ tables.old ++ more) }
{
    let mut last_first = turned(alloc, more)?;
    while let Some(table) = last_first.pop() {
        tables.push(table)?;
    }
    Ok(())
}

/// Tables, the last one first.
#[tactic(auto, using(crate::proofs::Tables::turned_start, crate::proofs::Tables::turned_end))]
fn turned(alloc: Global, mut tables: List<Table>) -> Result<List<Table>, AllocError>
    ensures { IfOk result (λ other. other ≡ reverse tables) }
{
    let mut other = List::new(alloc);
    while let Some(table) = tables.pop() {
        other.push(table)?;
    }
    Ok(other)
}
