//! Lists of values in the order of their first occurrence, found again by a hash.
ghost use Rattle.std.specs.Prelude.{◌≡◌, ◌<◌, ◌++◌, [], ◌∷◌, IfOk, IfSome, OnErr, OnOk, length, map};
ghost use Rattle.hp_defs.specs.First.{IsFirst};
ghost use Rattle.hp_tables.specs.Kept.{coordinate};

use hp_num::Frac;
use indexmap::IndexSet;
use std::alloc::{AllocError, Global};
use std::marker::Model;

/// A value as a hash takes it: its numerator and denominator in lowest terms.
#[derive(Clone, Copy, PartialEq, Eq, Hash)]
pub struct Coordinate {
    pub num: i128,
    pub den: i128,
}

/// Lists of values, each numbered from 0 by its place.
#[derive(Drop)]
pub struct PointIndex {
    set: IndexSet<Vec<Coordinate>>,
}

impl Model for PointIndex {
    ghost use Rattle.std.specs.Prelude.{List, map};
    ghost use Rattle.hp_tables.specs.declared.index.Coordinate.{Coordinate};

    ghost Value = { List (List Coordinate) };

    ghost view = { λ index. map (λ point. point.items) index.set.keys };
}

impl PointIndex {
    /// No lists.
    pub fn new(alloc: Global) -> PointIndex
        ensures { result ≡ [] }
    {
        PointIndex {
            set: IndexSet::new(alloc),
        }
    }

    /// The first place of a list, or `None` where it is not there. Takes no memory.
    pub fn position(&self, point: &[Coordinate]) -> Option<usize>
        ensures first { IsFirst point.now self.now result }
        ensures within { IfSome result (λ number. number < length self.now) }
    {
        self.set.get_index_of(point)
    }

    /// Adds a list that is not there at the end. At `Err` nothing has changed.
    pub fn add(&mut self, point: Vec<Coordinate>) -> Result<(), AllocError>
        requires { IsFirst point.items self.old None }
        ensures added { OnOk result (self.new ≡ self.old ++ point.items ∷ []) }
        ensures unchanged { OnErr result (self.new ≡ self.old) }
    {
        self.set.insert(point)?;
        Ok(())
    }
}

fn coordinate_of(value: Frac) -> Coordinate
    ensures { result ≡ coordinate value }
{
    Coordinate {
        num: value.num(),
        den: value.den(),
    }
}

/// Values as a hash takes them. `Err` says that memory was wanting.
pub fn coordinates(alloc: Global, values: &[Frac]) -> Result<Vec<Coordinate>, AllocError>
    ensures { IfOk result (λ point. point.items ≡ map coordinate values.now) }
{
    let mut point = Vec::with_capacity(alloc, values.len())?;
    for value in values {
        point.push(coordinate_of(*value))?;
    }
    Ok(point)
}
