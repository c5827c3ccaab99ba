//! The groups of functions: each function with its class, by the clauses that it owns, and the arrays of a level together.

ghost use Rattle.std.specs.Prelude.{◌≡◌, ◌<◌, [], ◌∷◌, ◌++◌, length, slice_get, IfOk, OnOk, Some};
ghost use Rattle.std.specs.List.{All};
ghost use Rattle.hp_tree.specs.declared.problem.Sort.TheVariants.{Num};
ghost use Rattle.hp_defs.specs.declared.names.Signature.{Signature};
ghost use Rattle.hp_norm.specs.Flat.{IsFlat};
ghost use Rattle.hp_shapes.specs.Shapes.{form_of};
ghost use Rattle.hp_pairs.specs.Answers.{IsUnmet};
ghost use Rattle.hp_pairs.specs.Branches.{branches_of, pairs_from};
ghost use Rattle.hp_points.specs.Made.{monotone_at};
ghost use Rattle.hp_ruled.specs.Laws.{AreRuled, cases_of, clauses_of};
ghost use Rattle.hp_groups.specs.declared.group.Group.TheVariants as kinds;
ghost use Rattle.hp_groups.specs.Groups.{by_branches, group_among, group_at, groups_of, levels_after};
ghost use Rattle.hp_groups.specs.Laws.{IsWhole};

use crate::arrays::{add_arrays, is_array};
use crate::copies::{cases_of, clauses_of};
use crate::group::Group;
use hp_by_cases::Cases;
use hp_defs::Names;
use hp_norm::FlatClause;
use hp_num::List;
use hp_points::{Free, Monotone};
use hp_rules::{Ruled, copy_clause};
use hp_shapes::{Form, form_of};
use std::alloc::{AllocError, Global};

/// The groups of functions in this order, given by their places in the order of declarations, counted from 0: a function is
/// monotone where a clause has monotone shape over it, by cases where it has a clause of a case, and else free; the arrays of a
/// level that clauses apply are one group, at the place of the first of them. It asks for clauses that keep the rules, no pair
/// of whose cases is met, and for all functions in the order. `Err` says that memory was wanting.
pub fn groups(
    alloc: Global,
    names: &Names,
    clauses: &[FlatClause],
    ruled: &Ruled,
    order: &[u32],
) -> Result<List<Group>, AllocError>
    requires ruled { AreRuled names.now clauses.now ruled.now }
    requires unmet { All IsUnmet (pairs_from ruled.now.branches 0 (length names.now.signatures)) }
    requires known { All (λ func. func < length names.now.signatures) order.now }
    requires whole { IsWhole names.now.signatures order.now }
    ensures made { IfOk result (λ made. made ≡ groups_of (record { flats = clauses.now; ruled = ruled.now }) names.now.signatures order.now) }
{
    let mut groups = List::new(alloc);
    let mut levels = List::new(alloc);
    for func in order {
        add_group(
            alloc,
            names,
            clauses,
            ruled,
            order,
            *func,
            &mut levels,
            &mut groups,
        )?;
    }
    Ok(groups)
}

/// Adds the group of a function, where the arrays of these levels are there.
fn add_group(
    alloc: Global,
    names: &Names,
    clauses: &[FlatClause],
    ruled: &Ruled,
    order: &[u32],
    func: u32,
    levels: &mut List<u64>,
    groups: &mut List<Group>,
) -> Result<(), AllocError>
    requires ruled { AreRuled names.now clauses.now ruled.now }
    requires unmet { All IsUnmet (pairs_from ruled.now.branches 0 (length names.now.signatures)) }
    requires all_known { All (λ func. func < length names.now.signatures) order.now }
    requires whole { IsWhole names.now.signatures order.now }
    requires known { func < length names.now.signatures }
    ensures made { (s : Signature) → slice_get names.now.signatures func ≡ Some s → OnOk result (groups.new ≡ groups.old ++ group_at (record { flats = clauses.now; ruled = ruled.now }) names.now.signatures order.now levels.old func (Some s)) }
    ensures levels { (s : Signature) → slice_get names.now.signatures func ≡ Some s → OnOk result (levels.new ≡ levels_after (record { flats = clauses.now; ruled = ruled.now }) levels.old func (Some s)) }
{
    if is_array(ruled, func) {
        let level = names.signature(func).level;
        add_arrays(alloc, names, clauses, ruled, order, level, levels, groups)
    } else {
        let group = group_of(alloc, names, clauses, ruled, func)?;
        groups.push(group)
    }
}

/// The group of a function.
fn group_of(
    alloc: Global,
    names: &Names,
    clauses: &[FlatClause],
    ruled: &Ruled,
    func: u32,
) -> Result<Group, AllocError>
    requires ruled { AreRuled names.now clauses.now ruled.now }
    requires unmet { All IsUnmet (pairs_from ruled.now.branches 0 (length names.now.signatures)) }
    requires known { func < length names.now.signatures }
    ensures made { (s : Signature) → slice_get names.now.signatures func ≡ Some s → IfOk result (λ made. made ≡ group_among func s ruled.now clauses.now) }
{
    for i in 0..clauses.len() {
        let clause = &clauses[i];
        let form = own_form(names, clause, func);
        match form {
            Some(form) => return monotone(alloc, names, func, clause, form),
            None => {}
        }
    }
    by_cases_or_free(alloc, names, clauses, ruled, func)
}

/// The form of a clause over the function at a place.
fn own_form(names: &Names, clause: &FlatClause, func: u32) -> Option<Form>
    requires known { func < length names.now.signatures }
    ensures { (s : Signature) → slice_get names.now.signatures func ≡ Some s → result ≡ form_of s.name clause.now.vars clause.now.guard clause.now.head }
{
    form_of(
        &names.signature(func).name,
        clause.vars.as_slice(),
        clause.guard.as_slice(),
        clause.head.as_slice(),
    )
}

/// The group of a monotone function with this clause, of which it has a copy.
fn monotone(
    alloc: Global,
    names: &Names,
    func: u32,
    clause: &FlatClause,
    form: Form,
) -> Result<Group, AllocError>
    requires known { (s : Signature) × (slice_get names.now.signatures func ≡ Some s) × (s.args ≡ Num ∷ []) × (s.result ≡ Num) × (form_of s.name clause.now.vars clause.now.guard clause.now.head ≡ Some form) }
    requires flat { IsFlat names.now clause.now }
    ensures made { (s : Signature) → slice_get names.now.signatures func ≡ Some s → IfOk result (λ made. made ≡ kinds.Monotone (monotone_at func s clause.now form)) }
{
    let own = copy_clause(alloc, clause)?;
    Ok(Group::Monotone(Monotone::new(alloc, names, func, own, form)?))
}

/// The group of a function without a clause of monotone shape.
fn by_cases_or_free(
    alloc: Global,
    names: &Names,
    clauses: &[FlatClause],
    ruled: &Ruled,
    func: u32,
) -> Result<Group, AllocError>
    requires ruled { AreRuled names.now clauses.now ruled.now }
    requires unmet { All IsUnmet (pairs_from ruled.now.branches 0 (length names.now.signatures)) }
    requires known { func < length names.now.signatures }
    ensures made { (s : Signature) → slice_get names.now.signatures func ≡ Some s → IfOk result (λ made. made ≡ by_branches func s ruled.now (branches_of func ruled.now.branches)) }
{
    let cases = cases_of(alloc, func, ruled.branches.as_slice())?;
    if cases.len() == 0 {
        Ok(Group::Free(Free::new(alloc, names, func)?))
    } else {
        let own = clauses_of(alloc, func, ruled.clauses.as_slice())?;
        let lower = List::new(alloc);
        Ok(Group::Cases(Cases::new(alloc, names, func, own, cases, lower)?))
    }
}
