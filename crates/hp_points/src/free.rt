//! Free functions: those that no clause with variables speaks of. Their points are rows, and elsewhere they are 0.
ghost use Rattle.std.specs.Prelude.{◌≡◌, ◌<◌, [], ◌∷◌, ◌++◌, IfOk, length, Some, slice_get};
ghost use Rattle.hp_defs.specs.declared.names.Signature.{Signature};
ghost use Rattle.std.specs.List.{All};
ghost use Rattle.hp_class.specs.Small.{HasFewArguments};
ghost use Rattle.hp_base.specs.Making.{keep};
ghost use Rattle.hp_tables.specs.Classes.{IsFree, free_tables};
ghost use Rattle.hp_tables.proofs.ClassLaws.{free_fits, free_law, free_stays, no_plan_fits, nothing_grows};
ghost use Rattle.hp_tables.proofs.Applies.{nothing_applies};
ghost use Rattle.hp_class.specs.Law.{HaveSortedPoints};

use hp_class::{LocalClass, Slope, add_function_lines};
use hp_defs::{Ground, Names};
use hp_lit::GroundErr;
use hp_model::Table;
use hp_num::{Frac, List, Text};
use hp_tables::free_table;
use std::alloc::{AllocError, Global};

/// A function that is own in no clause.
#[derive(Drop)]
pub struct Free {
    func: u32,
    word: Text,
    args: u8,
    own: List<u32>,
}

impl Free {
    ghost use Rattle.hp_points.specs.Made.{free_at};

    /// The class of the function at a place in the order of declarations, counted from 0. `Err` says that memory was
    /// wanting.
    pub fn new(alloc: Global, names: &Names, func: u32) -> Result<Free, AllocError>
        requires known { func < length names.now.signatures }
        requires few { All HasFewArguments names.now.signatures }
        ensures made { (s : Signature) → slice_get names.now.signatures func ≡ Some s → IfOk result (λ c. c ≡ free_at func s) }
        ensures lent { IfOk result (λ c. ⟦<Free as LocalClass>⟧.IsLent c names.now) }
    {
        let signature = names.signature(func);
        let mut own = List::new(alloc);
        own.push(func)?;
        Ok(Free {
            func,
            word: signature.name.copy(alloc)?,
            args: signature.args.len() as u8,
            own,
        })
    }
}

impl LocalClass for Free {
    ghost own = { λ c. c.own };

    ghost applied = { λ _. [] };

    ghost clauses = { λ _. [] };

    ghost IsLent = { λ c names. IsFree names c.func c.word c.args c.own };

    ghost grow_of = { λ _. keep tt };

    ghost plan_of = { λ _ _. [] };

    ghost ArePlaced = { λ c. HaveSortedPoints c.own };

    ghost tables_of = { λ c _ names v. free_tables c.func c.word c.args names v };

    fn own(&self) -> &List<u32> {
        &self.own
    }

    fn grow(&self, alloc: Global, g: &mut Ground) -> Result<(), GroundErr> {
        Ok(())
    }

    fn lines(&self, alloc: Global, g: &mut Ground) -> Result<(), GroundErr> {
        add_function_lines(alloc, g, self.own.as_slice())
    }

    fn tables(
        &self,
        alloc: Global,
        size: u32,
        names: &Names,
        values: &[Frac],
    ) -> Result<List<Table>, AllocError> {
        let table = free_table(alloc, self.func, &self.word, self.args, names, values)?;
        let mut tables = List::new(alloc);
        tables.push(table)?;
        Ok(tables)
    }

    fn ready(
        &self,
        alloc: Global,
        names: &Names,
        values: &[Frac],
    ) -> Result<Option<Slope>, AllocError> {
        Ok(None)
    }

    ghost stays_lent = { λ c old new lent begins made. free_stays old new c.func c.word c.args c.own lent begins };

    ghost grows = { λ c done before after lent sound e. nothing_grows (c.own ++ []) done before after sound e };

    ghost plan_fits = { λ c names lent made fit. no_plan_fits names };

    ghost applies = { λ c names lent. nothing_applies names (c.own ++ []) };

    ghost completes = { λ c size done start next names v lent e modelled placed ready. free_law size done start next names v c.func c.word c.args c.own lent e modelled };

    ghost fitting = { λ c size names v lent made fit have some sorted. free_fits size names v c.func c.word c.args c.own lent some sorted };
}
