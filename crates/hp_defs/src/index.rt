//! Lists of cells in the order of their first occurrence, found again by a hash.
ghost use Rattle.std.specs.Prelude.{◌≡◌, ◌<◌, ◌++◌, [], ◌∷◌, IfSome, OnErr, OnOk, length, take};
ghost use Rattle.hp_defs.specs.First.{IsFirst};

use crate::cell::Cell;
use indexmap::IndexSet;
use std::alloc::{AllocError, Global};
use std::marker::Model;

/// Lists of cells, each numbered from 0 by its place.
#[derive(Drop)]
pub struct CellIndex {
    set: IndexSet<Vec<Cell>>,
}

impl Model for CellIndex {
    ghost use Rattle.std.specs.Prelude.{List, map};
    ghost use Rattle.hp_defs.specs.declared.cell.Cell.{Cell};

    ghost Value = { List (List Cell) };

    ghost view = { λ index. map (λ cells. cells.items) index.set.keys };
}

impl CellIndex {
    /// No lists.
    pub fn new(alloc: Global) -> CellIndex
        ensures { result ≡ [] }
    {
        CellIndex {
            set: IndexSet::new(alloc),
        }
    }

    /// Where the lists get their memory.
    pub fn alloc(&self) -> Global {
        *self.set.allocator()
    }

    /// The first place of a list, or `None` where it is not there. Takes no memory.
    pub fn position(&self, cells: &[Cell]) -> Option<usize>
        ensures first { IsFirst cells.now self.now result }
        ensures within { IfSome result (λ number. number < length self.now) }
    {
        self.set.get_index_of(cells)
    }

    /// Adds a list that is not there at the end. At `Err` nothing has changed.
    pub fn add(&mut self, cells: Vec<Cell>) -> Result<(), AllocError>
        requires { IsFirst cells.items self.old None }
        ensures added { OnOk result (self.new ≡ self.old ++ cells.items ∷ []) }
        ensures unchanged { OnErr result (self.new ≡ self.old) }
    {
        self.set.insert(cells)?;
        Ok(())
    }

    /// Keeps so many lists in front.
    pub fn truncate(&mut self, len: usize)
        ensures { self.new ≡ take len self.old }
    {
        self.set.truncate(len);
    }
}
