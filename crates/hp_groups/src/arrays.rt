//! The arrays of a level, with the clauses over them.

ghost use Rattle.std.specs.Prelude.{◌≡◌, ◌<◌, ◌++◌, ◌&&◌, length, slice_get, IfOk, OnOk};
ghost use Rattle.std.specs.List.{All};
ghost use Rattle.hp_class.specs.Frame.{is_place};
ghost use Rattle.hp_rules.specs.Rules.{has_level, is_array};
ghost use Rattle.hp_ruled.specs.Laws.{AreRuled, array_clauses, own_arrays, place_words};
ghost use Rattle.hp_groups.specs.Groups.{array_group, arrays_once, with_level};
ghost use Rattle.hp_groups.specs.Laws.{IsWhole};

use crate::group::Group;
use hp_array::Arrays;
use hp_defs::Names;
use hp_norm::FlatClause;
use hp_num::{List, Text};
use hp_rules::{ArrayClause, Ruled, copy_clause};
use std::alloc::{AllocError, Global};

/// Adds the group of the arrays of a level, and the level, unless this is there.
pub fn add_arrays(
    alloc: Global,
    names: &Names,
    clauses: &[FlatClause],
    ruled: &Ruled,
    order: &[u32],
    level: u64,
    levels: &mut List<u64>,
    groups: &mut List<Group>,
) -> Result<(), AllocError>
    requires ruled { AreRuled names.now clauses.now ruled.now }
    requires known { All (λ func. func < length names.now.signatures) order.now }
    requires whole { IsWhole names.now.signatures order.now }
    ensures made { OnOk result (groups.new ≡ groups.old ++ arrays_once (record { flats = clauses.now; ruled = ruled.now }) names.now.signatures order.now levels.old level) }
    ensures levels { OnOk result (levels.new ≡ with_level levels.old level) }
{
    if is_there(levels.as_slice(), level) {
        return Ok(());
    }
    let group = array_group(alloc, names, clauses, ruled, order, level)?;
    groups.push(group)?;
    levels.push(level)
}

/// Whether a level is one of these.
fn is_there(levels: &[u64], level: u64) -> bool
    ensures { result ≡ is_place levels.now level }
{
    levels.iter().any(|other| *other == level)
}

/// The group of the arrays of a level, in this order.
fn array_group(
    alloc: Global,
    names: &Names,
    clauses: &[FlatClause],
    ruled: &Ruled,
    order: &[u32],
    level: u64,
) -> Result<Group, AllocError>
    requires ruled { AreRuled names.now clauses.now ruled.now }
    requires known { All (λ func. func < length names.now.signatures) order.now }
    requires whole { IsWhole names.now.signatures order.now }
    ensures { IfOk result (λ made. made ≡ array_group (record { flats = clauses.now; ruled = ruled.now }) names.now.signatures order.now level) }
{
    let own = own_arrays(alloc, names, ruled, order, level)?;
    let words = place_words(alloc, names, own.as_slice())?;
    let over = array_clauses(alloc, level, ruled.arrays.as_slice())?;
    Ok(Group::Arrays(Arrays::new(names, own, words, over)))
}

/// Whether a clause over arrays applies the function at a place.
pub fn is_array(ruled: &Ruled, func: u32) -> bool
    ensures { result ≡ is_array ruled.now func }
{
    ruled
        .arrays
        .as_slice()
        .iter()
        .any(|clause| applies(clause, func))
}

/// Whether this clause does.
fn applies(clause: &ArrayClause, func: u32) -> bool
    ensures { result ≡ is_place clause.now.funcs func }
{
    clause.funcs.as_slice().iter().any(|other| *other == func)
}

/// The arrays of a level among functions in this order.
fn own_arrays(
    alloc: Global,
    names: &Names,
    ruled: &Ruled,
    order: &[u32],
    level: u64,
) -> Result<List<u32>, AllocError>
    requires known { All (λ func. func < length names.now.signatures) order.now }
    ensures { IfOk result (λ own. own ≡ own_arrays ruled.now names.now.signatures order.now level) }
{
    let mut own = List::new(alloc);
    for func in order {
        if is_own(names, ruled, *func, level) {
            own.push(*func)?;
        }
    }
    Ok(own)
}

/// Whether a function is an array of this level.
fn is_own(names: &Names, ruled: &Ruled, func: u32, level: u64) -> bool
    requires known { func < length names.now.signatures }
    ensures { result ≡ (is_array ruled.now func && has_level level (slice_get names.now.signatures func)) }
{
    is_array(ruled, func) && names.signature(func).level == level
}

/// The words of functions, as copies.
fn place_words(alloc: Global, names: &Names, funcs: &[u32]) -> Result<List<Text>, AllocError>
    requires known { All (λ func. func < length names.now.signatures) funcs.now }
    ensures { IfOk result (λ words. words ≡ place_words names.now.signatures funcs.now) }
{
    let mut words = List::new(alloc);
    for func in funcs {
        words.push(names.signature(*func).name.copy(alloc)?)?;
    }
    Ok(words)
}

/// The clauses over arrays of a level, as copies, in their order.
fn array_clauses(
    alloc: Global,
    level: u64,
    clauses: &[ArrayClause],
) -> Result<List<FlatClause>, AllocError>
    ensures { IfOk result (λ over. over ≡ array_clauses level clauses.now) }
{
    let mut over = List::new(alloc);
    for clause in clauses {
        if clause.level == level {
            over.push(copy_clause(alloc, &clause.clause)?)?;
        }
    }
    Ok(over)
}
