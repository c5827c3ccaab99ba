//! Groups of arrays. Each array has an element at each index of the index set, each clause an instance at each tuple over it,
//! and the table of an array is the step function through its elements.
ghost use Rattle.std.specs.Prelude.{◌≡◌, []};
ghost use Rattle.hp_instance.proofs.ComingBack.{arguments_come_back};
ghost use Rattle.hp_arrays.specs.Arrays.{IsArrayGroup, array_elements, arrays_plan, arrays_tables};
ghost use Rattle.hp_arrays.proofs.Applies.{arrays_apply};
ghost use Rattle.hp_arrays.proofs.Complete.{arrays_complete_at};
ghost use Rattle.hp_arrays.proofs.Fits.{arrays_fit, arrays_plan_fits};
ghost use Rattle.hp_arrays.proofs.Grows.{arrays_grow};
ghost use Rattle.hp_arrays.proofs.Stays.{arrays_stay};
ghost use Rattle.hp_class.specs.Law.{HaveSortedPoints};

use hp_arrays::{add_elements, array_tables};
use hp_class::{LocalClass, Slope, add_function_lines};
use hp_defs::{Ground, Names};
use hp_index_set::index_set;
use hp_lit::GroundErr;
use hp_model::Table;
use hp_norm::FlatClause;
use hp_num::{Frac, List, Text};
use hp_tuple_lines::add_tuple_lines;
use std::alloc::{AllocError, Global};

/// A group of arrays: their places in the order of declarations, counted from 0, their words in the same order, and the
/// clauses that apply them.
#[derive(Drop)]
pub struct Arrays {
    own: List<u32>,
    words: List<Text>,
    clauses: List<FlatClause>,
}

impl Arrays {
    ghost use Rattle.hp_array.specs.Made.{arrays_at};

    /// The class of these arrays with their words and clauses.
    pub fn new(
        names: &Names,
        own: List<u32>,
        words: List<Text>,
        clauses: List<FlatClause>,
    ) -> Arrays
        requires arrays { IsArrayGroup names.now own words clauses }
        ensures made { result ≡ arrays_at own words clauses }
        ensures lent { ⟦<Arrays as LocalClass>⟧.IsLent result names.now }
    {
        Arrays {
            own,
            words,
            clauses,
        }
    }
}

impl LocalClass for Arrays {
    ghost own = { λ c. c.own };

    ghost applied = { λ _. [] };

    ghost clauses = { λ c. c.clauses };

    ghost IsLent = { λ c names. IsArrayGroup names c.own c.words c.clauses };

    ghost grow_of = { λ c. array_elements c.own c.clauses };

    ghost plan_of = { λ c. arrays_plan c.own c.clauses };

    ghost ArePlaced = { λ c. HaveSortedPoints c.own };

    ghost tables_of = { λ c _ names v. arrays_tables c.own c.words names v };

    fn own(&self) -> &List<u32> {
        &self.own
    }

    fn grow(&self, alloc: Global, g: &mut Ground) -> Result<(), GroundErr> {
        let own = self.own.as_slice();
        let indexes = index_set(alloc, own, self.clauses.as_slice(), &g.names)?;
        add_elements(alloc, g, own, indexes.as_slice())
    }

    fn lines(&self, alloc: Global, g: &mut Ground) -> Result<(), GroundErr> {
        let own = self.own.as_slice();
        let clauses = self.clauses.as_slice();
        let indexes = index_set(alloc, own, clauses, &g.names)?;
        add_tuple_lines(alloc, g, clauses, indexes.as_slice())?;
        add_function_lines(alloc, g, own)
    }

    fn tables(
        &self,
        alloc: Global,
        size: u32,
        names: &Names,
        values: &[Frac],
    ) -> Result<List<Table>, AllocError> {
        let words = self.words.as_slice();
        array_tables(alloc, self.own.as_slice(), words, names, values)
    }

    fn ready(
        &self,
        alloc: Global,
        names: &Names,
        values: &[Frac],
    ) -> Result<Option<Slope>, AllocError> {
        Ok(None)
    }

    ghost stays_lent = { λ c old new lent begins made. arrays_stay old new c.own c.words c.clauses lent begins made };

    ghost grows = { λ c done before after lent sound e. arrays_grow c.own c.words c.clauses done before after lent sound e };

    ghost plan_fits = { λ c names lent made fit. arrays_plan_fits names c.own c.words c.clauses lent made fit };

    ghost applies = { λ c names lent. arrays_apply names c.own c.words c.clauses lent };

    ghost completes = { λ c size done start next names v lent e modelled placed ready. arrays_complete_at arguments_come_back size done start next names v c.own c.words c.clauses lent e modelled };

    ghost fitting = { λ c size names v lent made fit have some sorted. arrays_fit size names v c.own c.words c.clauses lent some sorted };
}
