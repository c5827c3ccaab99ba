//! The names of a ground problem: its constants, the signatures of its functions, and its definitions. Words and
//! definitions are found again by a hash.
//!
//! The sort of a name isn't stored beside it: a constant has the sort of its declaration, an application the result
//! of its function's signature, and a sum is of sort num.
ghost use Rattle.std.specs.Prelude.{◌≡◌, ◌+◌, ◌-◌, ◌<◌, ◌≤◌, ◌^◌, [], ◌∷◌, ◌++◌, false, length, map, option_map, position, slice_get, Some, None, IfOk, IfSome, OnOk, OnErr, MatchOption};
ghost use Rattle.std.specs.Str.{bytes_eq};
ghost use Rattle.hp_tree.specs.Limits.{most_names};
ghost use Rattle.hp_terms.specs.Words.{IsPlainWord};
ghost use Rattle.hp_names.specs.Names.{is_among};
ghost use Rattle.hp_lit.specs.declared.line.Body.{Body};
ghost use Rattle.hp_lit.specs.Words.{number};
ghost use Rattle.hp_defs.specs.Cells.{body_cells};
ghost use Rattle.hp_defs.specs.Made.{IsMade, IsSmallBody};
ghost use Rattle.hp_defs.specs.Names.{constant_name, constant_words, count, definition_name, function_words, next, sort_of_body, sorts, with_constant, with_definition, with_signature, words};
ghost use Rattle.hp_defs.specs.Places.{applied, places, with_place};
ghost use Rattle.hp_defs.specs.Same.{place};

use crate::cell::{Cell, cells_of};
use crate::index::CellIndex;
use crate::places::{add_place, applied, take_place};
use crate::words::{push_named, word_of};
use hp_lit::{Body, Def, Line, Name};
use hp_names::NameIndex;
use hp_num::{List, Text};
use hp_tree::Sort;
use std::alloc::{AllocError, Global};
use std::marker::Model;

/// A declared constant.
#[derive(Drop)]
pub struct Constant {
    pub name: Text,
    pub sort: Sort,
}

/// A declared function: its name, the sorts of its arguments and of its result, its level, and the number of the item
/// that declares it, counted from 1.
#[derive(Drop)]
pub struct Signature {
    pub name: Text,
    pub args: List<Sort>,
    pub result: Sort,
    pub level: u64,
    pub item: u32,
}

/// Names with their sorts: at most 4,000 constants and definitions together. No two constants have one word, and none
/// has a word that is `_` with digits, no two functions have one word, and no two definitions have one body. What a
/// body adds to an index has a magnitude of at most 2 * 10^24.
///
/// Contracts see the constants in the order of declarations, the signatures in the order of declarations, and the
/// definitions in the order of their making. Name 0 is the first constant, and the definitions follow the constants.
#[derive(Drop)]
pub struct Names {
    declared: List<Constant>,
    functions: List<Signature>,
    made: List<Def>,
    word_index: NameIndex,
    function_index: NameIndex,
    definition_index: CellIndex,
    places: Vec<List<u32>>,
}

impl Model for Names {
    ghost use Rattle.hp_defs.specs.Names.{NameList};

    ghost Value = { NameList };

    ghost use Rattle.hp_defs.specs.Indexed.{IsIndexed};

    ghost view = { λ n. record { constants = n.declared; signatures = n.functions; definitions = n.made } };

    ghost invariant = { λ n. IsIndexed (record { constants = n.declared; signatures = n.functions; definitions = n.made }) n.word_index n.function_index n.definition_index n.places.items };
}

impl Names {
    /// No names.
    pub fn new(alloc: Global) -> Names
        ensures { result ≡ record { constants = []; signatures = []; definitions = [] } }
    {
        Names {
            declared: List::new(alloc),
            functions: List::new(alloc),
            made: List::new(alloc),
            word_index: NameIndex::new(alloc),
            function_index: NameIndex::new(alloc),
            definition_index: CellIndex::new(alloc),
            places: Vec::new(alloc),
        }
    }

    /// Adds a constant, in the order of declarations and before all definitions. At `Err` the names are as before.
    pub fn add_constant(&mut self, name: Text, sort: Sort) -> Result<(), AllocError>
        requires few { length self.old.constants < most_names }
        requires before { self.old.definitions ≡ [] }
        requires fresh { is_among name (constant_words self.old) ≡ false }
        requires plain { IsPlainWord name }
        ensures added { OnOk result (self.new ≡ with_constant self.old (record { name = name; sort = sort })) }
        ensures unchanged { OnErr result (self.new ≡ self.old) }
    {
        let alloc = self.definition_index.alloc();
        let word = name.copy(alloc)?;
        let constant = Constant { name, sort };
        push_named(
            alloc,
            &mut self.declared,
            &mut self.word_index,
            constant,
            word.as_slice(),
        )?;
        Ok(())
    }

    /// Adds the signature of a function, in the order of declarations and before all definitions. At `Err` the names
    /// are as before.
    pub fn add_signature(&mut self, signature: Signature) -> Result<(), AllocError>
        requires few { length self.old.signatures + 1 < 2 ^ 32 }
        requires before { self.old.definitions ≡ [] }
        requires fresh { is_among signature.name (function_words self.old) ≡ false }
        ensures added { OnOk result (self.new ≡ with_signature self.old signature) }
        ensures unchanged { OnErr result (self.new ≡ self.old) }
    {
        let alloc = self.definition_index.alloc();
        let word = signature.name.copy(alloc)?;
        self.places.push(List::new(alloc))?;
        match push_named(
            alloc,
            &mut self.functions,
            &mut self.function_index,
            signature,
            word.as_slice(),
        ) {
            Ok(()) => Ok(()),
            Err(error) => {
                self.places.pop();
                Err(error)
            }
        }
    }

    /// How many constants and definitions there are.
    pub fn count(&self) -> u64
        ensures count { result ≡ length (sorts self.now) }
        ensures names { result ≡ count self.now }
        ensures few { result ≤ most_names }
        ensures made { IsMade self.now }
    {
        self.declared.len() as u64 + self.made.len() as u64
    }

    /// The sort of a name below the count.
    pub fn sort(&self, n: Name) -> Sort
        requires { n.0 < length (sorts self.now) }
        ensures { slice_get (sorts self.now) n.0 ≡ Some result }
    {
        let at = n.0 as usize;
        if at < self.declared.len() {
            self.declared.get(at).sort
        } else {
            body_sort(
                &self.functions,
                &self.made.get(at - self.declared.len()).body,
            )
        }
    }

    /// The definition of a name below the count, and `None` exactly for a constant.
    pub fn def(&self, n: Name) -> Option<&Def>
        requires { n.0 < length (sorts self.now) }
        ensures { MatchOption result (n.0 < length self.now.constants) (λ def. (length self.now.constants ≤ n.0) × (slice_get self.now.definitions (n.0 - length self.now.constants) ≡ Some def.now)) }
    {
        let at = n.0 as usize;
        if at < self.declared.len() {
            None
        } else {
            Some(self.made.get(at - self.declared.len()))
        }
    }

    /// The declared name of a constant.
    pub fn constant_name(&self, n: Name) -> &Text
        requires { n.0 < length self.now.constants }
        ensures { slice_get (map constant_name self.now.constants) n.0 ≡ Some result.now }
    {
        &self.declared.get(n.0 as usize).name
    }

    /// The constants, in the order of declarations.
    pub fn constants(&self) -> &[Constant]
        ensures constants { result.now ≡ self.now.constants }
        ensures few { length result.now ≤ most_names }
    {
        self.declared.as_slice()
    }

    /// The definitions, in the order of their making.
    pub fn definitions(&self) -> &[Def]
        ensures definitions { result.now ≡ self.now.definitions }
        ensures few { length result.now ≤ most_names }
        ensures made { IsMade self.now }
    {
        self.made.as_slice()
    }

    /// The places of the definitions that apply a function, counted from 0, in the order of their making. The function is
    /// given by its place in the order of declarations, counted from 0.
    pub fn of_function(&self, func: u32) -> &[u32]
        requires { func < length self.now.signatures }
        ensures { result.now ≡ places func self.now.definitions }
    {
        self.places[func as usize].as_slice()
    }

    /// The signature of a function, by its place in the order of declarations, counted from 0.
    pub fn signature(&self, func: u32) -> &Signature
        requires { func < length self.now.signatures }
        ensures { slice_get self.now.signatures func ≡ Some result.now }
    {
        self.functions.get(func as usize)
    }

    /// The words of all names, in the order of the names: of the constants, and `_1`, `_2` and so on of the definitions.
    pub fn words(&self) -> &NameIndex
        ensures words { result.now ≡ words self.now }
        ensures few { length result.now ≤ most_names }
    {
        &self.word_index
    }

    /// The name that a word stands for, or `None` where it stands for none. Takes no memory.
    pub fn word_index(&self, word: &[u8]) -> Option<Name>
        ensures { result ≡ number (words self.now) word.now }
    {
        match self.word_index.position(word) {
            Some(at) => Some(Name(at as u32)),
            None => None,
        }
    }

    /// The place of the function with this word in the order of declarations, counted from 0, or `None` where there is
    /// none. Takes no memory.
    pub fn function(&self, word: &[u8]) -> Option<u32>
        ensures position { result ≡ position (bytes_eq word.now) (function_words self.now) }
        ensures within { IfSome result (λ func. func < length self.now.signatures) }
    {
        match self.function_index.position(word) {
            Some(at) => Some(at as u32),
            None => None,
        }
    }

    /// The name of the definition with this body, or `None` where there is none.
    pub fn find(&self, alloc: Global, body: &Body) -> Result<Option<Name>, AllocError>
        ensures { IfOk result (λ found. found ≡ option_map (definition_name self.now) (place body.now self.now.definitions)) }
    {
        let cells = cells_of(alloc, body)?;
        match self.place(cells.as_slice()) {
            Some(at) => Ok(Some(Name(self.declared.len() as u32 + at))),
            None => Ok(None),
        }
    }

    /// The place of the definition whose body has these cells, counted from 0.
    fn place(&self, cells: &[Cell]) -> Option<u32>
        ensures first { (body : Body) → cells.now ≡ body_cells body → result ≡ place body self.now.definitions }
        ensures within { IfSome result (λ at. at < length self.now.definitions) }
    {
        match self.definition_index.position(cells) {
            Some(at) => Some(at as u32),
            None => None,
        }
    }

    /// Adds a definition with this body, which there is not yet. At `Err` the names are as before.
    pub fn add(&mut self, body: Body) -> Result<Name, AllocError>
        requires few { count self.old < most_names }
        requires small { IsSmallBody body }
        requires fresh { place body self.old.definitions ≡ None }
        ensures added { OnOk result (self.new ≡ with_definition self.old body) }
        ensures named { IfOk result (λ name. name ≡ next self.old) }
        ensures unchanged { OnErr result (self.new ≡ self.old) }
    {
        let alloc = self.definition_index.alloc();
        let cells = cells_of(alloc, &body)?;
        let word = word_of(alloc, self.made.len() as u64 + 1)?;
        let name = Name(self.declared.len() as u32 + self.made.len() as u32);
        let definition = Def { name, body };
        self.definition_index.add(cells)?;
        match push_definition(
            alloc,
            &mut self.made,
            &mut self.word_index,
            &mut self.places,
            definition,
            word.as_slice(),
        ) {
            Ok(()) => Ok(name),
            Err(error) => {
                self.definition_index.truncate(self.made.len());
                Err(error)
            }
        }
    }
}

/// Adds a definition with its word, which there is not yet, and its place. At `Err` all are as before.
fn push_definition(
    alloc: Global,
    made: &mut List<Def>,
    words: &mut NameIndex,
    groups: &mut Vec<List<u32>>,
    definition: Def,
    word: &[u8],
) -> Result<(), AllocError>
    requires few { length made.old < 2 ^ 32 }
    requires fresh { is_among word.now words.old ≡ false }
    ensures added { OnOk result (made.new ≡ made.old ++ definition ∷ []) }
    ensures indexed { OnOk result (words.new ≡ words.old ++ word.now ∷ []) }
    ensures placed { OnOk result (groups.new.items ≡ with_place groups.old.items (length made.old) (applied definition.body)) }
    ensures unchanged { OnErr result (made.new ≡ made.old) }
    ensures unindexed { OnErr result (words.new ≡ words.old) }
    ensures unplaced { OnErr result (groups.new.items ≡ groups.old.items) }
{
    let func = applied(&definition.body);
    add_place(groups, made.len() as u32, func)?;
    match push_named(alloc, made, words, definition, word) {
        Ok(()) => Ok(()),
        Err(error) => {
            take_place(groups, func);
            Err(error)
        }
    }
}

/// The sort of what a definition stands for; of an application without a signature, num.
fn body_sort(functions: &List<Signature>, body: &Body) -> Sort
    ensures { result ≡ sort_of_body functions.now body.now }
{
    match body {
        Body::Sum(_) => Sort::Num,
        Body::Apply { func, .. } => {
            let at = *func as usize;
            if at < functions.len() {
                functions.get(at).result
            } else {
                Sort::Num
            }
        }
    }
}

/// A ground problem: its names, and lines over them that all are to be true.
#[derive(Drop)]
pub struct Ground {
    pub names: Names,
    pub lines: List<Line>,
}
