//! Groups of pointer fields. Each clause has an instance at each tuple of the pointers that there were, and the table of a
//! field has a row for each pointer of the universe at which it is applied.
ghost use Rattle.std.specs.Prelude.{◌≡◌, ◌++◌, IfOk};
ghost use Rattle.hp_base.specs.Making.{keep};
ghost use Rattle.hp_tables.proofs.ClassLaws.{nothing_grows};
ghost use Rattle.hp_fields.specs.Fields.{IsFieldGroup, IsUniverse, fields_plan, fields_tables};
ghost use Rattle.hp_fields.proofs.Applies.{fields_apply};
ghost use Rattle.hp_fields.proofs.Complete.{fields_complete_at};
ghost use Rattle.hp_fields.proofs.Fits.{fields_fit, fields_plan_fits};
ghost use Rattle.hp_fields.proofs.Stays.{fields_stay};

use hp_class::{LocalClass, Slope, add_function_lines};
use hp_defs::{Ground, Names};
use hp_fields::{field_tables, pointer_terms};
use hp_lit::{Arg, GroundErr};
use hp_model::Table;
use hp_norm::FlatClause;
use hp_num::{Frac, List, Text};
use hp_tuple_lines::add_tuple_lines;
use std::alloc::{AllocError, Global};

/// A group of pointer fields: their places in the order of declarations, counted from 0, their words in the same order, the
/// places of the lower functions that their clauses apply, the clauses, and the pointers at which these have instances.
#[derive(Drop)]
pub struct Fields {
    own: List<u32>,
    words: List<Text>,
    applied: List<u32>,
    clauses: List<FlatClause>,
    terms: List<Arg>,
}

impl Fields {
    ghost use Rattle.hp_fields.specs.Fields.{IsFieldsFor};
    ghost use Rattle.hp_field.specs.Made.{fields_at};

    /// The class of these fields with their words, the lower functions that their clauses apply, and the clauses. The
    /// pointers are null and the names of sort ptr that there are now. `Err` says that memory was wanting.
    pub fn new(
        alloc: Global,
        names: &Names,
        own: List<u32>,
        words: List<Text>,
        applied: List<u32>,
        clauses: List<FlatClause>,
    ) -> Result<Fields, AllocError>
        requires fields { IsFieldsFor names.now own words applied clauses }
        ensures made { IfOk result (λ c. c ≡ fields_at names.now own words applied clauses) }
        ensures lent { IfOk result (λ c. ⟦<Fields as LocalClass>⟧.IsLent c names.now) }
    {
        let terms = pointer_terms(alloc, names)?;
        Ok(Fields {
            own,
            words,
            applied,
            clauses,
            terms,
        })
    }
}

impl LocalClass for Fields {
    ghost own = { λ c. c.own };

    ghost applied = { λ c. c.applied };

    ghost clauses = { λ c. c.clauses };

    ghost IsLent = { λ c names. IsFieldGroup names c.own c.words c.applied c.clauses c.terms };

    ghost grow_of = { λ _. keep tt };

    ghost plan_of = { λ c. fields_plan c.clauses c.terms };

    ghost ArePlaced = { λ c size names v. IsUniverse size v c.terms };

    ghost tables_of = { λ c size names v. fields_tables size c.words names v };

    fn own(&self) -> &List<u32> {
        &self.own
    }

    fn grow(&self, alloc: Global, g: &mut Ground) -> Result<(), GroundErr> {
        Ok(())
    }

    fn lines(&self, alloc: Global, g: &mut Ground) -> Result<(), GroundErr> {
        add_tuple_lines(alloc, g, self.clauses.as_slice(), self.terms.as_slice())?;
        add_function_lines(alloc, g, self.own.as_slice())
    }

    fn tables(
        &self,
        alloc: Global,
        size: u32,
        names: &Names,
        values: &[Frac],
    ) -> Result<List<Table>, AllocError> {
        let own = self.own.as_slice();
        field_tables(alloc, size, own, self.words.as_slice(), names, values)
    }

    fn ready(
        &self,
        alloc: Global,
        names: &Names,
        values: &[Frac],
    ) -> Result<Option<Slope>, AllocError> {
        Ok(None)
    }

    ghost stays_lent = { λ c old new lent begins made. fields_stay old new c.own c.words c.applied c.clauses c.terms lent begins };

    ghost grows = { λ c done before after lent sound e. nothing_grows (c.own ++ c.applied) done before after sound e };

    ghost plan_fits = { λ c names lent made fit. fields_plan_fits names c.own c.words c.applied c.clauses c.terms lent made };

    ghost applies = { λ c names lent. fields_apply names c.own c.words c.applied c.clauses c.terms lent };

    ghost completes = { λ c size done start next names v lent e modelled placed ready. fields_complete_at size done start next names v c.own c.words c.applied c.clauses c.terms lent e modelled placed };

    ghost fitting = { λ c size names v lent made fit sorted some placed. fields_fit size names v c.own c.words c.applied c.clauses c.terms lent made fit sorted some };
}
