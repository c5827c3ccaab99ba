//! Monotone functions of num to num. Their clause has an instance at each ordered pair of applications, and their table is
//! the step function through their points: between two points the value of the lower one, so that any order of the values at
//! the points is kept everywhere.
ghost use Rattle.std.specs.Prelude.{◌≡◌, ◌<◌, [], ◌∷◌, ◌++◌, IfOk, length, Some, slice_get};
ghost use Rattle.hp_tree.specs.declared.problem.Sort.TheVariants.{Num};
ghost use Rattle.hp_defs.specs.declared.names.Signature.{Signature};
ghost use Rattle.hp_base.specs.Making.{keep};
ghost use Rattle.hp_norm.specs.Flat.{IsFlat};
ghost use Rattle.hp_instance.proofs.ComingBack.{arguments_come_back};
ghost use Rattle.hp_tables.specs.Classes.{IsMonotone, step_tables};
ghost use Rattle.hp_tables.specs.Pairs.{pairs_plan};
ghost use Rattle.hp_shapes.specs.Shapes.{form_of};
ghost use Rattle.hp_tables.proofs.ClassLaws.{monotone_stays, nothing_grows, steps_fit};
ghost use Rattle.hp_tables.proofs.Complete.{monotone_completes_at};
ghost use Rattle.hp_tables.proofs.Applies.{monotone_applies};
ghost use Rattle.hp_tables.proofs.Fits.{monotone_plan_fits};
ghost use Rattle.hp_class.specs.Law.{HaveSortedPoints};

use hp_class::{LocalClass, Slope, add_function_lines};
use hp_defs::{Ground, Names};
use hp_lit::GroundErr;
use hp_model::Table;
use hp_norm::FlatClause;
use hp_num::{Frac, List, Text};
use hp_shapes::Form;
use hp_tables::{add_pair_lines, step_table};
use std::alloc::{AllocError, Global};

/// A function of num to num with its clause of monotone shape.
#[derive(Drop)]
pub struct Monotone {
    func: u32,
    word: Text,
    clause: FlatClause,
    form: Form,
    own: List<u32>,
}

impl Monotone {
    ghost use Rattle.hp_points.specs.Made.{monotone_at};

    /// The class of the function at a place in the order of declarations, counted from 0, with its clause and the form of
    /// that. `Err` says that memory was wanting.
    pub fn new(
        alloc: Global,
        names: &Names,
        func: u32,
        clause: FlatClause,
        form: Form,
    ) -> Result<Monotone, AllocError>
        requires known { (s : Signature) × (slice_get names.now.signatures func ≡ Some s) × (s.args ≡ Num ∷ []) × (s.result ≡ Num) × (form_of s.name clause.vars clause.guard clause.head ≡ Some form) }
        requires flat { IsFlat names.now clause }
        ensures made { (s : Signature) → slice_get names.now.signatures func ≡ Some s → IfOk result (λ c. c ≡ monotone_at func s clause form) }
        ensures lent { IfOk result (λ c. ⟦<Monotone as LocalClass>⟧.IsLent c names.now) }
    {
        let signature = names.signature(func);
        let mut own = List::new(alloc);
        own.push(func)?;
        Ok(Monotone {
            func,
            word: signature.name.copy(alloc)?,
            clause,
            form,
            own,
        })
    }
}

impl LocalClass for Monotone {
    ghost own = { λ c. c.own };

    ghost applied = { λ _. [] };

    ghost clauses = { λ c. c.clause ∷ [] };

    ghost IsLent = { λ c names. IsMonotone names c.func c.word c.clause c.form c.own };

    ghost grow_of = { λ _. keep tt };

    ghost plan_of = { λ c. pairs_plan c.func c.form.first_lower c.clause };

    ghost ArePlaced = { λ c. HaveSortedPoints c.own };

    ghost tables_of = { λ c _ names v. step_tables c.func c.word names v };

    fn own(&self) -> &List<u32> {
        &self.own
    }

    fn grow(&self, alloc: Global, g: &mut Ground) -> Result<(), GroundErr> {
        Ok(())
    }

    fn lines(&self, alloc: Global, g: &mut Ground) -> Result<(), GroundErr> {
        add_pair_lines(alloc, g, self.func, &self.clause, self.form.first_lower)?;
        add_function_lines(alloc, g, self.own.as_slice())
    }

    fn tables(
        &self,
        alloc: Global,
        size: u32,
        names: &Names,
        values: &[Frac],
    ) -> Result<List<Table>, AllocError> {
        let table = step_table(alloc, self.func, &self.word, names, values)?;
        let mut tables = List::new(alloc);
        tables.push(table)?;
        Ok(tables)
    }

    fn ready(
        &self,
        alloc: Global,
        names: &Names,
        values: &[Frac],
    ) -> Result<Option<Slope>, AllocError> {
        Ok(None)
    }

    ghost stays_lent = { λ c old new lent begins made. monotone_stays old new c.func c.word c.clause c.form c.own lent begins made };

    ghost grows = { λ c done before after lent sound e. nothing_grows (c.own ++ []) done before after sound e };

    ghost plan_fits = { λ c names lent made fit. monotone_plan_fits names c.func c.word c.clause c.form c.own lent made fit };

    ghost applies = { λ c names lent. monotone_applies names c.func c.word c.clause c.form c.own lent };

    ghost completes = { λ c size done start next names v lent e modelled placed ready. monotone_completes_at arguments_come_back start next names c.func c.word c.clause c.form c.own size v done lent e modelled };

    ghost fitting = { λ c size names v lent made fit have some sorted. steps_fit size names v c.func c.word c.clause c.form c.own lent some sorted };
}
