//! Functions by cases. Each clause has an instance at each application, and the table has a row for each application and
//! then one for each case, with its lower bound, or its upper one where there is no lower one. Bounds may apply lower
//! functions.
ghost use Rattle.std.specs.Prelude.{◌≡◌, ◌<◌, [], ◌∷◌, ◌++◌, IfOk, length, Some, slice_get};
ghost use Rattle.hp_defs.specs.declared.names.Signature.{Signature};
ghost use Rattle.hp_base.specs.Making.{keep};
ghost use Rattle.hp_instance.proofs.ComingBack.{arguments_come_back};
ghost use Rattle.hp_tables.proofs.ClassLaws.{nothing_grows};
ghost use Rattle.hp_cases.specs.Cases.{IsByCases, cases_plan, cases_tables};
ghost use Rattle.hp_cases.proofs.Complete.{cases_complete_at};
ghost use Rattle.hp_cases.proofs.Laws.{cases_apply, cases_fit, cases_plan_fits, cases_stay};
ghost use Rattle.hp_class.specs.Law.{HaveSortedPoints};

use hp_cases::{Case, add_case_lines, case_table};
use hp_class::{LocalClass, Slope, add_function_lines};
use hp_defs::{Ground, Names};
use hp_lit::GroundErr;
use hp_model::Table;
use hp_norm::FlatClause;
use hp_num::{Frac, List, Text};
use std::alloc::{AllocError, Global};

/// A function by cases: its clauses, over the words of its arguments, its cases in their order, and the lower functions that
/// the bounds of these apply.
#[derive(Drop)]
pub struct Cases {
    func: u32,
    word: Text,
    args: u8,
    clauses: List<FlatClause>,
    cases: List<Case>,
    applied: List<u32>,
    own: List<u32>,
}

impl Cases {
    ghost use Rattle.hp_norm.specs.declared.flat.FlatClause.{FlatClause};
    ghost use Rattle.hp_by_cases.specs.Made.{cases_at};

    /// The class of the function at a place in the order of declarations, counted from 0, with its clauses over the words of
    /// its arguments, its cases, and the places of the functions of num to num that the bounds of these apply, of which it is
    /// none. `Err` says that memory was wanting.
    pub fn new(
        alloc: Global,
        names: &Names,
        func: u32,
        clauses: List<FlatClause>,
        cases: List<Case>,
        applied: List<u32>,
    ) -> Result<Cases, AllocError>
        requires known { func < length names.now.signatures }
        requires by_cases { (s : Signature) → slice_get names.now.signatures func ≡ Some s → IsByCases names.now func s.name (length s.args) clauses cases applied (func ∷ []) }
        ensures made { (s : Signature) → slice_get names.now.signatures func ≡ Some s → IfOk result (λ c. c ≡ cases_at func s clauses cases applied) }
        ensures lent { IfOk result (λ c. ⟦<Cases as LocalClass>⟧.IsLent c names.now) }
    {
        let signature = names.signature(func);
        let mut own = List::new(alloc);
        own.push(func)?;
        Ok(Cases {
            func,
            word: signature.name.copy(alloc)?,
            args: signature.args.len() as u8,
            clauses,
            cases,
            applied,
            own,
        })
    }
}

impl LocalClass for Cases {
    ghost own = { λ c. c.own };

    ghost applied = { λ c. c.applied };

    ghost clauses = { λ c. c.clauses };

    ghost IsLent = { λ c names. IsByCases names c.func c.word c.args c.clauses c.cases c.applied c.own };

    ghost grow_of = { λ _. keep tt };

    ghost plan_of = { λ c. cases_plan c.func c.clauses };

    ghost ArePlaced = { λ c. HaveSortedPoints c.own };

    ghost tables_of = { λ c _ names v. cases_tables c.func c.word c.args c.cases names v };

    fn own(&self) -> &List<u32> {
        &self.own
    }

    fn grow(&self, alloc: Global, g: &mut Ground) -> Result<(), GroundErr> {
        Ok(())
    }

    fn lines(&self, alloc: Global, g: &mut Ground) -> Result<(), GroundErr> {
        add_case_lines(alloc, g, self.func, self.clauses.as_slice())?;
        add_function_lines(alloc, g, self.own.as_slice())
    }

    fn tables(
        &self,
        alloc: Global,
        size: u32,
        names: &Names,
        values: &[Frac],
    ) -> Result<List<Table>, AllocError> {
        let cases = self.cases.as_slice();
        let table = case_table(
            alloc, self.func, &self.word, self.args, cases, names, values,
        )?;
        let mut tables = List::new(alloc);
        tables.push(table)?;
        Ok(tables)
    }

    fn ready(
        &self,
        alloc: Global,
        names: &Names,
        values: &[Frac],
    ) -> Result<Option<Slope>, AllocError> {
        Ok(None)
    }

    ghost stays_lent = { λ c old new lent begins made. cases_stay old new c.func c.word c.args c.clauses c.cases c.applied c.own lent begins made };

    ghost grows = { λ c done before after lent sound e. nothing_grows (c.own ++ c.applied) done before after sound e };

    ghost plan_fits = { λ c names lent made fit. cases_plan_fits names c.func c.word c.args c.clauses c.cases c.applied c.own lent made fit };

    ghost applies = { λ c names lent. cases_apply names c.func c.word c.args c.clauses c.cases c.applied c.own lent };

    ghost completes = { λ c size done start next names v lent e modelled placed ready. cases_complete_at arguments_come_back size done start next names v c.func c.word c.args c.clauses c.cases c.applied c.own lent e modelled };

    ghost fitting = { λ c size names v lent made fit have some sorted. cases_fit size names v c.func c.word c.args c.clauses c.cases c.applied c.own lent some sorted };
}
