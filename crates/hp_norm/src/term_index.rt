//! Terms in the order of their first occurrence, found again by a hash of their keys.

ghost use Rattle.std.specs.Prelude.{◌≡◌, ◌<◌, ◌≤◌, ◌++◌, [], ◌∷◌, None, IfOk, IfSome, OnErr, OnOk, length, map, position};
ghost use Rattle.std.specs.List.{position_or_len};
ghost use Rattle.hp_tree.specs.declared.term.Term.{Term};
ghost use Rattle.hp_defs.specs.First.{IsFirst};
ghost use Rattle.hp_norm.specs.TermKeys.{term_key};
ghost use Rattle.hp_norm.specs.Trees.{noted, same_term};

use crate::key::key_of;
use hp_num::List;
use hp_tree::Term;
use indexmap::IndexSet;
use std::alloc::{AllocError, Global};
use std::marker::Model;

/// Lists of whole numbers, each numbered from 0 by its place.
#[derive(Drop)]
struct KeyIndex {
    set: IndexSet<Vec<i128>>,
}

impl Model for KeyIndex {
    ghost use Rattle.std.specs.Prelude.{ℤ, List, map};

    ghost Value = { List (List ℤ) };

    ghost view = { λ index. map (λ key. key.items) index.set.keys };
}

impl KeyIndex {
    /// No lists.
    fn new(alloc: Global) -> KeyIndex
        ensures { result ≡ [] }
    {
        KeyIndex {
            set: IndexSet::new(alloc),
        }
    }

    /// The first place of a list, or `None` where it is not there. Takes no memory.
    fn position(&self, key: &[i128]) -> Option<usize>
        ensures first { IsFirst key.now self.now result }
        ensures within { IfSome result (λ number. number < length self.now) }
    {
        self.set.get_index_of(key)
    }

    /// Adds a list that is not there at the end. At `Err` nothing has changed.
    fn add(&mut self, key: Vec<i128>) -> Result<(), AllocError>
        requires { IsFirst key.items self.old None }
        ensures added { OnOk result (self.new ≡ self.old ++ key.items ∷ []) }
        ensures unchanged { OnErr result (self.new ≡ self.old) }
    {
        self.set.insert(key)?;
        Ok(())
    }
}

/// Different terms, each numbered from 0 by its place. Contracts see the list of them.
#[derive(Drop)]
pub struct TermIndex {
    terms: List<Term>,
    keys: KeyIndex,
}

impl Model for TermIndex {
    ghost use Rattle.std.specs.Prelude.{◌≡◌, List, map};
    ghost use Rattle.hp_tree.specs.declared.term.Term.{Term};
    ghost use Rattle.hp_norm.specs.TermKeys.{term_key};
    ghost use Rattle.hp_tree.specs.contracts.term.Term as term;
    ghost use Rattle.std.specs.Coded.{codes};

    ghost Value = { List Term };

    ghost coded = { Prim.hlevel (codes, term.the_row.coded) };

    ghost view = { λ index. index.terms };

    ghost invariant = { λ index. index.keys ≡ map term_key index.terms };
}

impl TermIndex {
    /// No terms.
    pub fn new(alloc: Global) -> TermIndex
        ensures { result ≡ [] }
    {
        TermIndex {
            terms: List::new(alloc),
            keys: KeyIndex::new(alloc),
        }
    }

    /// The terms in the order of their adding.
    pub fn as_slice(&self) -> &[Term]
        ensures { result.now ≡ self.now }
    {
        self.terms.as_slice()
    }

    /// How many terms there are.
    pub fn len(&self) -> usize
        ensures { result ≡ length self.now }
    {
        self.terms.len()
    }

    /// The place of a term, counted from 0; the number of terms where it is not there. `Err` where memory is short.
    pub fn place_of(&self, alloc: Global, term: &Term) -> Result<usize, AllocError>
        ensures place { IfOk result (λ at. at ≡ position_or_len (same_term term.now) self.now) }
        ensures within { IfOk result (λ at. at ≤ length self.now) }
    {
        let key = key_of(alloc, term)?;
        match self.place(key.as_slice()) {
            Some(at) => Ok(at),
            None => Ok(self.terms.len()),
        }
    }

    /// The place of the first term with this key, or `None` where there is none.
    fn place(&self, key: &[i128]) -> Option<usize>
        ensures first { (term : Term) → key.now ≡ term_key term → result ≡ position (same_term term) self.now }
        ensures within { IfSome result (λ at. at < length self.now) }
    {
        self.keys.position(key)
    }

    /// Adds a term at the end, unless it is there. An `Err` comes where memory is short.
    pub fn note(&mut self, alloc: Global, term: &Term) -> Result<(), AllocError>
        ensures { OnOk result (self.new ≡ noted term.now self.old) }
    {
        let key = key_of(alloc, term)?;
        match self.place(key.as_slice()) {
            Some(_) => Ok(()),
            None => self.add(key, term.copy(alloc)?),
        }
    }

    /// Adds a term that is not there, with its key, at the end. At `Err` nothing has changed.
    fn add(&mut self, key: Vec<i128>, term: Term) -> Result<(), AllocError>
        requires key { key.items ≡ term_key term }
        requires fresh { position (same_term term) self.old ≡ None }
        ensures added { OnOk result (self.new ≡ self.old ++ term ∷ []) }
        ensures unchanged { OnErr result (self.new ≡ self.old) }
    {
        self.terms.push(term)?;
        match self.keys.add(key) {
            Ok(()) => Ok(()),
            Err(error) => {
                self.terms.pop();
                Err(error)
            }
        }
    }
}
