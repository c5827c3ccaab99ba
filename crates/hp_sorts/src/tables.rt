//! Names with what they stand for: constants and variables with their sorts, functions with their signatures.

ghost use Rattle.std.specs.Prelude.{◌≡◌, ◌++◌, [], ◌∷◌, false, OnOk, option_copied};
ghost use Rattle.hp_sorts.specs.Numbered.{is_among, named};
ghost use Rattle.hp_sorts.specs.Symbols.{no_symbols, is_declared, signature_of, name_sort};

use hp_names::NameIndex;
use hp_num::{List, Text};
use hp_tree::Sort;
use std::alloc::{AllocError, Global};

/// Names in the order in which they were added, and the sort of each at its place.
#[derive(Drop)]
pub struct SortTable {
    pub names: NameIndex,
    pub sorts: List<Sort>,
}

/// What a function takes and gives: the sorts of its arguments in their order, the sort of its result, and its level.
#[derive(Drop)]
pub struct Signature {
    pub args: List<Sort>,
    pub result: Sort,
    pub level: u64,
}

/// What declarations declare: constants, and functions with the signature of each at its place.
#[derive(Drop)]
pub struct Tables {
    pub constants: SortTable,
    pub functions: NameIndex,
    pub signatures: List<Signature>,
}

impl SortTable {
    /// No names.
    pub fn new(alloc: Global) -> SortTable
        ensures names { result.names ≡ [] }
        ensures sorts { result.sorts ≡ [] }
    {
        SortTable {
            names: NameIndex::new(alloc),
            sorts: List::new(alloc),
        }
    }

    /// Adds a name with its sort at the end.
    pub fn insert(&mut self, alloc: Global, name: &Text, sort: Sort) -> Result<(), AllocError>
        requires { is_among name.now self.old.names ≡ false }
        ensures names { OnOk result (self.new.names ≡ self.old.names ++ name.now ∷ []) }
        ensures sorts { OnOk result (self.new.sorts ≡ self.old.sorts ++ sort ∷ []) }
    {
        self.names.insert(alloc, name.as_slice())?;
        self.sorts.push(sort)
    }

    /// The sort of a name, or `None` where the name is not there.
    pub fn sort(&self, name: &Text) -> Option<Sort>
        ensures { result ≡ named name.now self.now.names self.now.sorts }
    {
        let place = self.names.position(name.as_slice())?;
        self.sorts.as_slice().get(place).copied()
    }
}

impl Tables {
    /// No symbols.
    pub fn new(alloc: Global) -> Tables
        ensures { result ≡ no_symbols }
    {
        Tables {
            constants: SortTable::new(alloc),
            functions: NameIndex::new(alloc),
            signatures: List::new(alloc),
        }
    }

    /// Whether a constant or a function has the name.
    pub fn declares(&self, name: &Text) -> bool
        ensures { result ≡ is_declared self.now name.now }
    {
        self.constants.names.contains(name.as_slice()) || self.functions.contains(name.as_slice())
    }

    /// The sort of a name without arguments, or `None` where it is neither a variable nor a constant.
    pub fn name_sort(&self, vars: &SortTable, name: &Text) -> Option<Sort>
        ensures { result ≡ name_sort self.now vars.now name.now }
    {
        match vars.sort(name) {
            Some(sort) => Some(sort),
            None => self.constants.sort(name),
        }
    }

    /// The signature of a function, or `None` where there is no such function.
    pub fn signature(&self, func: &Text) -> Option<&Signature>
        ensures { option_copied result ≡ signature_of self.now func.now }
    {
        let place = self.functions.position(func.as_slice())?;
        self.signatures.as_slice().get(place)
    }
}
