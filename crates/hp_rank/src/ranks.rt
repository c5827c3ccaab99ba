//! The values of names of sort ptr as ranks: places among the values of null and the first names in rising order, and
//! after them among the rest, also in rising order.
ghost use Rattle.std.specs.Prelude.{◌≡◌, ◌≤◌, ◌<◌, ◌^◌, ◌++◌, ◌∷◌, IfOk, OnOk, length, pos};
ghost use Rattle.std.specs.List.Sorted.{IsStrictlyIncreasing};
ghost use Rattle.hp_math.specs.Rational.{whole};
ghost use Rattle.hp_tree.specs.Limits.{most_names};
ghost use Rattle.hp_lit.specs.Sorts.{AreOfSorts};
ghost use Rattle.hp_rank.specs.Ranks.{outside, place_in, pointer, pointers, pointers_of, ranked, ranked_value, ranked_values, rising, universe_size};

use crate::numbers::{in_order, place_of, without};
use crate::values::Ranked;
use hp_lit::Valuation;
use hp_num::{Frac, List};
use hp_tree::Sort;
use std::alloc::{AllocError, Global};

/// The pointer that a value is.
fn pointer_of(value: Frac) -> u128
    ensures { result ≡ pointer value }
{
    value.num().unsigned_abs()
}

/// Adds the value of a name at the end, where it is one of sort ptr.
fn add_pointer(found: &mut Vec<u128>, sort: Sort, value: Frac) -> Result<(), AllocError>
    ensures { OnOk result (found.new.items ≡ found.old.items ++ pointers_of sort value) }
{
    match sort {
        Sort::Num | Sort::Idx => {}
        Sort::Ptr => found.push(pointer_of(value))?,
    }
    Ok(())
}

/// Adds the values of names of sort ptr at the end, in the order of names. `Err` says that memory was wanting.
fn add_pointers(found: &mut Vec<u128>, sorts: &[Sort], values: &[Frac]) -> Result<(), AllocError>
    requires { length sorts.now ≡ length values.now }
    ensures { OnOk result (found.new.items ≡ found.old.items ++ pointers sorts.now values.now) }
{
    for (at, sort) in sorts.iter().enumerate() {
        add_pointer(found, *sort, values[at])?;
    }
    Ok(())
}

/// The values of null and of names of sort ptr in rising order, each once.
fn universe_of(alloc: Global, sorts: &[Sort], values: &[Frac]) -> Result<Vec<u128>, AllocError>
    requires { length sorts.now ≡ length values.now }
    ensures { IfOk result (λ inside. inside.items ≡ rising (0 ∷ pointers sorts.now values.now)) }
{
    let mut found = Vec::new(alloc);
    found.push(0)?;
    add_pointers(&mut found, sorts, values)?;
    in_order(found)
}

/// The values of names of sort ptr in rising order, each once, but those of a universe.
fn outside_of(
    alloc: Global,
    inside: &[u128],
    sorts: &[Sort],
    values: &[Frac],
) -> Result<Vec<u128>, AllocError>
    requires rising { IsStrictlyIncreasing inside.now }
    requires same { length sorts.now ≡ length values.now }
    ensures { IfOk result (λ beside. beside.items ≡ outside inside.now (pointers sorts.now values.now)) }
{
    let mut found = Vec::new(alloc);
    add_pointers(&mut found, sorts, values)?;
    let sorted = in_order(found)?;
    without(alloc, &sorted, inside)
}

/// The place of a pointer in the first list, or after its end the place in the second one.
fn rank_of(inside: &[u128], beside: &[u128], pointer: u128) -> u128
    requires inside { IsStrictlyIncreasing inside.now }
    requires beside { IsStrictlyIncreasing beside.now }
    ensures place { result ≡ place_in inside.now beside.now pointer }
    ensures small { result < 2 ^ 65 }
{
    let place = place_of(inside, pointer);
    if place < inside.len() {
        place as u128
    } else {
        place as u128 + place_of(beside, pointer) as u128
    }
}

/// A whole number from 0 as a fraction.
fn whole_number(number: u128) -> Frac
    requires { number < 2 ^ 127 }
    ensures { result ≡ whole (pos number) }
{
    Frac::new(number as i128, 1)
}

/// A value by rank, where it is one of sort ptr.
fn value_of(inside: &[u128], beside: &[u128], sort: Sort, value: Frac) -> Frac
    requires inside { IsStrictlyIncreasing inside.now }
    requires beside { IsStrictlyIncreasing beside.now }
    ensures { result ≡ ranked_value (place_in inside.now beside.now) sort value }
{
    match sort {
        Sort::Num | Sort::Idx => value,
        Sort::Ptr => whole_number(rank_of(inside, beside, pointer_of(value))),
    }
}

/// The values by rank, in the order of names.
fn values_of(
    alloc: Global,
    inside: &[u128],
    beside: &[u128],
    sorts: &[Sort],
    values: &[Frac],
) -> Result<List<Frac>, AllocError>
    requires inside { IsStrictlyIncreasing inside.now }
    requires beside { IsStrictlyIncreasing beside.now }
    requires same { length sorts.now ≡ length values.now }
    ensures { IfOk result (λ ranked. ranked ≡ ranked_values (place_in inside.now beside.now) sorts.now values.now) }
{
    let mut ranked = List::new(alloc);
    for (at, sort) in sorts.iter().enumerate() {
        ranked.push(value_of(inside, beside, *sort, values[at]))?;
    }
    Ok(ranked)
}

/// The values by rank, and the size of the universe.
fn ranks_of(
    alloc: Global,
    first: usize,
    sorts: &[Sort],
    values: &[Frac],
) -> Result<Ranked, AllocError>
    requires first { first ≤ length sorts.now }
    requires few { length sorts.now ≤ most_names }
    requires same { length sorts.now ≡ length values.now }
    ensures universe { IfOk result (λ by_rank. by_rank.universe ≡ universe_size first sorts.now values.now) }
    ensures values { IfOk result (λ by_rank. by_rank.values.values ≡ ranked first sorts.now values.now) }
{
    let (first_sorts, other_sorts) = sorts.split_at(first);
    let (first_values, other_values) = values.split_at(first);
    let inside = universe_of(alloc, first_sorts, first_values)?;
    let beside = outside_of(alloc, &inside, other_sorts, other_values)?;
    let ranked = values_of(alloc, &inside, &beside, sorts, values)?;
    Ok(Ranked {
        universe: inside.len() as u32,
        values: Valuation { values: ranked },
    })
}

/// The values by rank. The first `first` names, counted in the order of names, make the universe with null; each name of
/// sort ptr has the rank of its value, and other names keep their values. `Err` says that memory was wanting. It asks for
/// values of the names' sorts and for at most 4,000 names, and takes n log n turns for n names.
pub fn ranked(
    alloc: Global,
    first: usize,
    sorts: &[Sort],
    values: &Valuation,
) -> Result<Ranked, AllocError>
    requires first { first ≤ length sorts.now }
    requires few { length sorts.now ≤ most_names }
    requires sorted { AreOfSorts sorts.now values.now.values }
    ensures universe { IfOk result (λ by_rank. by_rank.universe ≡ universe_size first sorts.now values.now.values) }
    ensures values { IfOk result (λ by_rank. by_rank.values.values ≡ ranked first sorts.now values.now.values) }
    ensures sorted { IfOk result (λ by_rank. AreOfSorts sorts.now by_rank.values.values) }
{
    ranks_of(alloc, first, sorts, values.values.as_slice())
}
