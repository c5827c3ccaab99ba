//! Rows that are pushed and popped, with values at which they are true.
ghost use Rattle.std.specs.Prelude.{◌≡◌, ◌+ℤ◌, ◌≤◌, ◌<◌, ◌+◌, ◌-ℤ◌, ◌≤ℤ◌, ◌^◌, ◌++◌, ◌∷◌, [], pos, neg_ℤ, IfOk, OnErr, length, List as Items, ℕ};
ghost use Rattle.hp_tree.specs.Limits.{largest_value, most_names, most_rows};
ghost use Rattle.hp_diff.specs.inner.Settled.{value_at};
ghost use Rattle.hp_diff.specs.Kept.{AreKept, IsKeepable, IsPushed, kept_value};

use crate::state::{State, add_row, drop_row, empty, make_room};
use hp_lit::{IdxLit, Name, Step};
use hp_num::List;
use std::alloc::{AllocError, Global};
use std::marker::Model;

/// Rows that are kept in the order of their pushes, and values at which all of them are true.
///
/// A row says of two names that the left less the right is at most a bound, or exactly it; no name counts as 0. Names are
/// numbered from 0 on. Contracts see how many names there are, the rows, and the values of nodes, by which `value` is
/// told.
///
/// A push repairs the values where they break the new row, from one name to the next (Cotton and Maler, Fast and flexible
/// difference constraint propagation for DPLL(T), 2006). A pop leaves them as they are, since values that make all rows
/// true make fewer true.
#[derive(Drop)]
pub struct Kept {
    alloc: Global,
    names: u32,
    rows: List<IdxLit>,
    state: State,
}

impl Model for Kept {
    ghost use Rattle.hp_diff.specs.Kept.{KeptRows};

    ghost Value = { KeptRows };

    ghost use Rattle.hp_diff.specs.inner.Inside.{IsInside, kept_rows};

    ghost view = { kept_rows };

    ghost invariant = { IsInside };
}

/// The value of a node, counted from that of the node for no name; 0 where there is no room for values yet.
fn offset(values: &[i128], node: usize) -> i128
    requires node { 0 < length values.now → node < length values.now }
    requires low { (x : ℕ) → x < length values.now → pos 0 ≤ℤ (value_at values.now x +ℤ pos largest_value) }
    requires high { (x : ℕ) → x < length values.now → value_at values.now x ≤ℤ pos 0 }
    ensures value { result ≡ value_at values.now node -ℤ value_at values.now 0 }
    ensures low { neg_ℤ (pos largest_value) ≤ℤ result }
    ensures high { result ≤ℤ pos largest_value }
{
    if values.len() == 0 {
        return 0;
    }
    values[node] - values[0]
}

impl Kept {
    /// No rows over so many names, at most 4,000, whose numbers are those below. It takes no memory: room for the values
    /// is made by the first push.
    pub fn new(alloc: Global, names: u32) -> Kept
        requires { names ≤ most_names }
        ensures names { result.names ≡ names }
        ensures rows { result.rows ≡ [] }
    {
        Kept {
            alloc,
            names,
            rows: List::new(alloc),
            state: empty(alloc),
        }
    }

    /// How many rows are kept, at most 100,000.
    pub fn len(&self) -> usize
        ensures { result ≡ length self.now.rows }
    {
        self.rows.len()
    }

    /// Keeps the row last, or answers a cycle of the rows and it, where no values make all of them true.
    ///
    /// The cycle's steps count the rows from 1 in the order of their pushes, and the new one after them. Each step's right
    /// name is the next one's left name, the last one's right name is the first one's left name, only equalities are
    /// turned about, and the bounds add to less than 0. With a cycle, and at `Err`, which says that memory was wanting,
    /// the rows are as before. It asks for fewer than 100,000 rows before, and a row over the names whose bound has a
    /// magnitude of at most 10^32.
    ///
    /// A repair sees to at most eight times as many names as there are, each with all rows that it is on the right of.
    /// Where that is not enough, and where a value would fall below -10^37, all rows are decided anew.
    pub fn push(&mut self, row: &IdxLit) -> Result<Option<List<Step>>, AllocError>
        requires few { length self.old.rows < most_rows }
        requires row { IsKeepable self.old.names row.now }
        ensures names { self.new.names ≡ self.old.names }
        ensures pushed { IfOk result (λ found. IsPushed self.old self.new row.now found) }
        ensures err { OnErr result (self.new.rows ≡ self.old.rows) }
    {
        let nodes = self.names as usize + 1;
        let lit = self.rows.len() as u32 + 1;
        make_room(self.alloc, &mut self.state, nodes)?;
        self.rows.push(*row)?;
        match add_row(self.alloc, &mut self.state, nodes, row, lit) {
            Ok(None) => Ok(None),
            Ok(Some(steps)) => {
                let _ = self.rows.pop();
                Ok(Some(steps))
            }
            Err(error) => {
                let _ = self.rows.pop();
                Err(error)
            }
        }
    }

    /// Drops the last row, of which there has to be one. The values of names stay as they are.
    pub fn pop(&mut self)
        requires { 0 < length self.old.rows }
        ensures names { self.new.names ≡ self.old.names }
        ensures rows { (rows : Items IdxLit) (row : IdxLit) → self.old.rows ≡ rows ++ row ∷ [] → self.new.rows ≡ rows }
    {
        let nodes = self.names as usize + 1;
        if let Some(row) = self.rows.pop() {
            drop_row(&mut self.state, nodes, &row);
        }
    }

    /// The value of a name: a whole number of a magnitude of at most 10^37. With these values of all names every kept row
    /// is true. It asks for a number below that of the names.
    pub fn value(&self, n: Name) -> i128
        requires { n.0 < self.now.names }
        ensures value { result ≡ kept_value self.now n.0 }
        ensures low { neg_ℤ (pos largest_value) ≤ℤ result }
        ensures high { result ≤ℤ pos largest_value }
        ensures keeps { AreKept self.now }
    {
        offset(self.state.values.as_slice(), n.0 as usize + 1)
    }
}
