//! Names in the order of their first occurrence, found again by a hash.

ghost use Rattle.std.specs.Prelude.{◌≡◌, ◌<◌, ◌++◌, [], ◌∷◌, false, IfOk, IfSome, OnErr, OnOk, is_some, length, position};
ghost use Rattle.std.specs.Str.{bytes_eq};
ghost use Rattle.hp_names.specs.Names.{Added, AreDistinct, is_among};

use indexmap::IndexSet;
use std::alloc::{AllocError, Global};
use std::marker::Model;

/// A list of distinct names, each numbered from 0 by its place. Contracts see it as the list of their bytes.
#[derive(Drop)]
pub struct NameIndex {
    set: IndexSet<Vec<u8>>,
}

impl Model for NameIndex {
    ghost use Rattle.std.specs.Prelude.{List, ℕ, map};
    ghost use Rattle.hp_names.specs.Names.{AreDistinct};

    ghost Value = { List (List ℕ) };

    ghost view = { λ index. map (λ name. name.items) index.set.keys };

    ghost invariant = { λ index. AreDistinct (map (λ name. name.items) index.set.keys) };
}

impl NameIndex {
    /// No names.
    pub fn new(alloc: Global) -> NameIndex
        ensures { result ≡ [] }
    {
        NameIndex {
            set: IndexSet::new(alloc),
        }
    }

    /// Adds a name at the end and answers true, or answers false where it is there already. At an error nothing
    /// has changed.
    pub fn insert(&mut self, alloc: Global, name: &[u8]) -> Result<bool, AllocError>
        ensures added { IfOk result (λ added. Added self.old name.now self.new added) }
        ensures fresh { is_among name.now self.old ≡ false → OnOk result (self.new ≡ self.old ++ name.now ∷ []) }
        ensures distinct { OnOk result (AreDistinct self.new) }
        ensures unchanged { OnErr result (self.new ≡ self.old) }
    {
        let owned = Vec::from_slice(alloc, name)?;
        Ok(self.set.insert(owned)?)
    }

    /// The number of a name, or `None` where it is not there. Takes no memory.
    pub fn position(&self, name: &[u8]) -> Option<usize>
        ensures position { result ≡ position (bytes_eq name.now) self.now }
        ensures found { is_some result ≡ is_among name.now self.now }
        ensures within { IfSome result (λ number. number < length self.now) }
        ensures distinct { AreDistinct self.now }
    {
        self.set.get_index_of(name)
    }

    /// Whether the name is there. Takes no memory.
    pub fn contains(&self, name: &[u8]) -> bool
        ensures { result ≡ is_among name.now self.now }
    {
        self.set.get_index_of(name).is_some()
    }
}
