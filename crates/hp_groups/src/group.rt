//! A group of any class.
ghost use Rattle.hp_groups.specs.declared.group.Group.TheVariants.{Arrays, Cases, Free, Monotone};
ghost use Rattle.hp_points.specs.contracts.free.FreeLocalClass.TheImpl.Laws as free_laws;
ghost use Rattle.hp_array.specs.contracts.arrays.ArraysLocalClass.TheImpl.Laws as arrays_laws;
ghost use Rattle.hp_by_cases.specs.contracts.cases.CasesLocalClass.TheImpl.Laws as cases_laws;
ghost use Rattle.hp_points.specs.contracts.monotone.MonotoneLocalClass.TheImpl.Laws as monotone_laws;

use hp_array::Arrays;
use hp_by_cases::Cases;
use hp_class::{LocalClass, Slope};
use hp_defs::{Ground, Names};
use hp_lit::GroundErr;
use hp_model::Table;
use hp_num::{Frac, List};
use hp_points::{Free, Monotone};
use std::alloc::{AllocError, Global};

/// Functions that are given together, by their class.
#[derive(Drop)]
pub enum Group {
    Free(Free),
    Monotone(Monotone),
    Cases(Cases),
    Arrays(Arrays),
}

impl LocalClass for Group {
    ghost own = { elim [ Free c ↦ ⟦<Free as LocalClass>⟧.own c | Monotone c ↦ ⟦<Monotone as LocalClass>⟧.own c | Cases c ↦ ⟦<Cases as LocalClass>⟧.own c | Arrays c ↦ ⟦<Arrays as LocalClass>⟧.own c ] };

    ghost applied = { elim [ Free c ↦ ⟦<Free as LocalClass>⟧.applied c | Monotone c ↦ ⟦<Monotone as LocalClass>⟧.applied c | Cases c ↦ ⟦<Cases as LocalClass>⟧.applied c | Arrays c ↦ ⟦<Arrays as LocalClass>⟧.applied c ] };

    ghost clauses = { elim [ Free c ↦ ⟦<Free as LocalClass>⟧.clauses c | Monotone c ↦ ⟦<Monotone as LocalClass>⟧.clauses c | Cases c ↦ ⟦<Cases as LocalClass>⟧.clauses c | Arrays c ↦ ⟦<Arrays as LocalClass>⟧.clauses c ] };

    ghost IsLent = { elim [ Free c ↦ ⟦<Free as LocalClass>⟧.IsLent c | Monotone c ↦ ⟦<Monotone as LocalClass>⟧.IsLent c | Cases c ↦ ⟦<Cases as LocalClass>⟧.IsLent c | Arrays c ↦ ⟦<Arrays as LocalClass>⟧.IsLent c ] };

    ghost grow_of = { elim [ Free c ↦ ⟦<Free as LocalClass>⟧.grow_of c | Monotone c ↦ ⟦<Monotone as LocalClass>⟧.grow_of c | Cases c ↦ ⟦<Cases as LocalClass>⟧.grow_of c | Arrays c ↦ ⟦<Arrays as LocalClass>⟧.grow_of c ] };

    ghost plan_of = { elim [ Free c ↦ ⟦<Free as LocalClass>⟧.plan_of c | Monotone c ↦ ⟦<Monotone as LocalClass>⟧.plan_of c | Cases c ↦ ⟦<Cases as LocalClass>⟧.plan_of c | Arrays c ↦ ⟦<Arrays as LocalClass>⟧.plan_of c ] };

    ghost Ready = { elim [ Free c ↦ ⟦<Free as LocalClass>⟧.Ready c | Monotone c ↦ ⟦<Monotone as LocalClass>⟧.Ready c | Cases c ↦ ⟦<Cases as LocalClass>⟧.Ready c | Arrays c ↦ ⟦<Arrays as LocalClass>⟧.Ready c ] };

    ghost ArePlaced = { elim [ Free c ↦ ⟦<Free as LocalClass>⟧.ArePlaced c | Monotone c ↦ ⟦<Monotone as LocalClass>⟧.ArePlaced c | Cases c ↦ ⟦<Cases as LocalClass>⟧.ArePlaced c | Arrays c ↦ ⟦<Arrays as LocalClass>⟧.ArePlaced c ] };

    ghost tables_of = { elim [ Free c ↦ ⟦<Free as LocalClass>⟧.tables_of c | Monotone c ↦ ⟦<Monotone as LocalClass>⟧.tables_of c | Cases c ↦ ⟦<Cases as LocalClass>⟧.tables_of c | Arrays c ↦ ⟦<Arrays as LocalClass>⟧.tables_of c ] };

    fn own(&self) -> &List<u32> {
        match self {
            Group::Free(c) => c.own(),
            Group::Monotone(c) => c.own(),
            Group::Cases(c) => c.own(),
            Group::Arrays(c) => c.own(),
        }
    }

    fn grow(&self, alloc: Global, g: &mut Ground) -> Result<(), GroundErr> {
        match self {
            Group::Free(c) => c.grow(alloc, g),
            Group::Monotone(c) => c.grow(alloc, g),
            Group::Cases(c) => c.grow(alloc, g),
            Group::Arrays(c) => c.grow(alloc, g),
        }
    }

    fn lines(&self, alloc: Global, g: &mut Ground) -> Result<(), GroundErr> {
        match self {
            Group::Free(c) => c.lines(alloc, g),
            Group::Monotone(c) => c.lines(alloc, g),
            Group::Cases(c) => c.lines(alloc, g),
            Group::Arrays(c) => c.lines(alloc, g),
        }
    }

    fn tables(
        &self,
        alloc: Global,
        size: u32,
        names: &Names,
        values: &[Frac],
    ) -> Result<List<Table>, AllocError> {
        match self {
            Group::Free(c) => c.tables(alloc, size, names, values),
            Group::Monotone(c) => c.tables(alloc, size, names, values),
            Group::Cases(c) => c.tables(alloc, size, names, values),
            Group::Arrays(c) => c.tables(alloc, size, names, values),
        }
    }

    fn ready(
        &self,
        alloc: Global,
        names: &Names,
        values: &[Frac],
    ) -> Result<Option<Slope>, AllocError> {
        match self {
            Group::Free(c) => c.ready(alloc, names, values),
            Group::Monotone(c) => c.ready(alloc, names, values),
            Group::Cases(c) => c.ready(alloc, names, values),
            Group::Arrays(c) => c.ready(alloc, names, values),
        }
    }

    ghost stays_lent = { elim [ Free c ↦ free_laws.stays_lent-law c | Monotone c ↦ monotone_laws.stays_lent-law c | Cases c ↦ cases_laws.stays_lent-law c | Arrays c ↦ arrays_laws.stays_lent-law c ] };

    ghost grows = { elim [ Free c ↦ free_laws.grows-law c | Monotone c ↦ monotone_laws.grows-law c | Cases c ↦ cases_laws.grows-law c | Arrays c ↦ arrays_laws.grows-law c ] };

    ghost plan_fits = { elim [ Free c ↦ free_laws.plan_fits-law c | Monotone c ↦ monotone_laws.plan_fits-law c | Cases c ↦ cases_laws.plan_fits-law c | Arrays c ↦ arrays_laws.plan_fits-law c ] };

    ghost applies = { elim [ Free c ↦ free_laws.applies-law c | Monotone c ↦ monotone_laws.applies-law c | Cases c ↦ cases_laws.applies-law c | Arrays c ↦ arrays_laws.applies-law c ] };

    ghost completes = { elim [ Free c ↦ free_laws.completes-law c | Monotone c ↦ monotone_laws.completes-law c | Cases c ↦ cases_laws.completes-law c | Arrays c ↦ arrays_laws.completes-law c ] };

    ghost fitting = { elim [ Free c ↦ free_laws.fitting-law c | Monotone c ↦ monotone_laws.fitting-law c | Cases c ↦ cases_laws.fitting-law c | Arrays c ↦ arrays_laws.fitting-law c ] };
}
