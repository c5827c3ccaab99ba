//! The trait of local classes: functions whose clauses hold at every value once they hold at finitely many tuples, by tables
//! that are read off from the values there.

ghost use Rattle.std.specs.Prelude.{◌≡◌, ◌↔◌, ℕ, List as list, ◌≤◌, ◌++◌, Ok, IfOk, IsTrue, None};
ghost use Rattle.std.specs.List.{All, AllZip, Contains};
ghost use Rattle.hp_lit.specs.Sorts.{HaveSorts};
ghost use Rattle.hp_lit.specs.Truth.{Values};
ghost use Rattle.hp_defs.specs.declared.names.Ground.{Ground as ground_set};
ghost use Rattle.hp_defs.specs.Fit.{IsFitNames};
ghost use Rattle.hp_defs.specs.Made.{IsMade};
ghost use Rattle.hp_defs.specs.Names.{BeginsNames, NameList, sorts};
ghost use Rattle.hp_model.specs.declared.structure.Table.{Table as table};
ghost use Rattle.hp_local.specs.Applied.{clause_applies};
ghost use Rattle.hp_local.specs.Law.{Completes};
ghost use Rattle.hp_base.specs.Making.{Begins, Maker, Makes};
ghost use Rattle.hp_norm.specs.declared.flat.FlatClause.{FlatClause};
ghost use Rattle.hp_norm.specs.Sound.{IsSound};
ghost use Rattle.hp_norm.specs.Flat.{universal_of};
ghost use Rattle.hp_class.specs.Frame.{frame_at, is_function};
ghost use Rattle.hp_class.specs.Group.{PlanFits, Planned, group_lines};
ghost use Rattle.hp_class.specs.Law.{HasGrown, IsModelled, IsTableAt, group_at};
ghost use Rattle.hp_class.specs.Small.{AreSmallIdx};

use hp_defs::{Ground, Names};
use hp_lit::{GroundErr, Name};
use hp_model::Table;
use hp_num::{Frac, List, Wide};
use std::alloc::{AllocError, Global};

/// Two definitions between whose values no slope can be computed, and the operation that is too wide.
#[derive(Drop)]
pub struct Slope {
    pub left: Name,
    pub right: Name,
    pub wide: Wide,
}

/// A group of functions of a local class. Functions are given by their places in the order of declarations, counted from 0.
///
/// The law of a class: where its clauses are true at the tuples of its plan, whatever functions have the points of its own
/// functions and of those that its clauses apply, its tables make them true at all values, over all such functions.
pub trait LocalClass {
    /// The functions of the group, the lower functions that its clauses apply, and the clauses.
    ghost own: { Self → list ℕ };

    ghost applied: { Self → list ℕ };

    ghost clauses: { Self → list FlatClause };
    /// The names are such as the group was made for.
    ghost IsLent: { Self → NameList → Type 0 };
    /// The definitions that the class makes first.
    ghost grow_of: { Self → Maker (Unit {0}) };
    /// The tuples at which it has instances then.
    ghost plan_of: { Self → NameList → list Planned };
    /// What the tables ask of values beside that lines are true: nothing, but where a class says otherwise.
    ghost Ready: { Self → NameList → Values → Type 0 } = { λ _ _ _. Unit {0} };
    /// Where the law wants pointers, in a universe of so many: those of the points of own functions in it, or those of some
    /// names alone.
    ghost ArePlaced: { Self → ℕ → NameList → Values → Type 0 };
    /// The tables, in a universe of so many pointers.
    ghost tables_of: { Self → ℕ → NameList → Values → list table };

    /// The functions of the group, in the order of declarations.
    fn own(&self) -> &List<u32>
        ensures { result.now ≡ own self.now };

    /// Makes the definitions that the class needs. The limits are those of definitions; at an error what was there before
    /// still is.
    fn grow(&self, alloc: Global, g: &mut Ground) -> Result<(), GroundErr>
        requires lent { IsLent self.now g.old.names }
        requires sound { IsSound g.old }
        ensures made { Makes (grow_of self.now) g.old g.new result }
        ensures kept { Begins g.old g.new };

    /// Adds the instances of the clauses, and then the lines of each two applications of each function of the group. The
    /// limits are those of definitions, coefficients and lines, in the order of making; at an error what was there before
    /// still is.
    fn lines(&self, alloc: Global, g: &mut Ground) -> Result<(), GroundErr>
        requires lent { IsLent self.now g.old.names }
        requires sound { IsSound g.old }
        ensures made { Makes (group_lines (own self.now) (plan_of self.now)) g.old g.new result }
        ensures kept { Begins g.old g.new };

    /// The tables of the functions, in their order, in a universe of so many pointers and at the values of the names. It asks
    /// for values of the names' sorts, of which those of sort idx have magnitudes of at most 10^37. `Err` says that memory
    /// was wanting.
    fn tables(
        &self,
        alloc: Global,
        size: u32,
        names: &Names,
        values: &[Frac],
    ) -> Result<List<Table>, AllocError>
        requires lent { IsLent self.now names.now }
        requires fit { IsFitNames names.now }
        requires sorted { HaveSorts (sorts names.now) values.now }
        requires small { AreSmallIdx (sorts names.now) values.now }
        requires ready { Ready self.now names.now values.now }
        ensures { IfOk result (λ tables. tables ≡ tables_of self.now size names.now values.now) };

    /// The first two definitions for which the tables can't be computed, and `None` exactly where they can.
    fn ready(
        &self,
        alloc: Global,
        names: &Names,
        values: &[Frac],
    ) -> Result<Option<Slope>, AllocError>
        requires lent { IsLent self.now names.now }
        requires fit { IsFitNames names.now }
        requires sorted { HaveSorts (sorts names.now) values.now }
        ensures { IfOk result (λ answer. answer ≡ None ↔ Ready self.now names.now values.now) };

    /// Names that grow stay such as the group was made for.
    ghost stays_lent: { (c : Self) (old new : NameList) → IsLent c old → BeginsNames old new → IsMade new → IsLent c new };

    /// What the class makes first says nothing new, and applies own functions and those that its clauses apply.
    ghost grows: { (c : Self) (done : Unit {0}) (before after : ground_set) → IsLent c before.names → IsSound before → grow_of c before ≡ Ok (done, after)
        → HasGrown (own c ++ applied c) before after };

    /// The plan has clauses of the group, with tuples that fit.
    ghost plan_fits: { (c : Self) (names : NameList) → IsLent c names → IsMade names → IsFitNames names → PlanFits names (clauses c) (plan_of c names) };

    /// The clauses apply functions of the group and lower ones alone.
    ghost applies: { (c : Self) (names : NameList) → IsLent c names → All (λ k. IsTrue (clause_applies (is_function names (own c ++ applied c)) (universal_of k))) (clauses c) };

    /// The law.
    ghost completes: { (c : Self) (size : ℕ) (done : Unit {0}) (start next : ground_set) (names : NameList) (v : Values)
        → IsLent c start.names → group_lines (own c) (plan_of c) start ≡ Ok (done, next)
        → IsModelled (own c) (applied c) (plan_of c start.names) size start next names v → ArePlaced c size names v → Ready c names v
        → Completes (frame_at size names v) (is_function names (applied c)) (group_at names (own c) (clauses c) (tables_of c size names v)) };

    /// One table for each function of the group, in their order, where pointers stand as the law wants them.
    ghost fitting: { (c : Self) (size : ℕ) (names : NameList) (v : Values) → IsLent c names → IsMade names → IsFitNames names → HaveSorts (sorts names) v → 1 ≤ size → ArePlaced c size names v
        → AllZip (IsTableAt size names (applied c)) (own c) (tables_of c size names v) };
}
