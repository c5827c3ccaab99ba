//! The tables of pointer fields: in the universe, the values of applications, and null elsewhere and for a pointer outside.
ghost use Rattle.std.specs.Prelude.{◌≡◌, ◌<◌, ◌≤◌, pos, IfOk, Some, length, map, slice_get};
ghost use Rattle.std.specs.List.{All, AllZip};
ghost use Rattle.hp_math.specs.Rational.{lt_ℚ, whole};
ghost use Rattle.hp_lit.specs.Sorts.{HaveSorts};
ghost use Rattle.hp_defs.specs.Fit.{IsFitNames};
ghost use Rattle.hp_defs.specs.Names.{sorts};
ghost use Rattle.hp_local.specs.Fields.{cut, field_table};
ghost use Rattle.hp_class.specs.Frame.{definition_facts};
ghost use Rattle.hp_class.specs.Small.{AreSmallIdx, HasSmallSums};
ghost use Rattle.hp_fields.specs.Fields.{IsField, cut_values, fields_tables, gives, inside_places, is_inside};

use hp_defs::Names;
use hp_flatten::is_ptr;
use hp_lit::Def;
use hp_model::Table;
use hp_num::{Frac, List, Text, Whole};
use hp_shapes::zero;
use hp_tables::{args_of, first_value, table};
use std::alloc::{AllocError, Global};
use std::cmp::Ordering;

/// The tables of fields with these words, in their order, in a universe of so many pointers: a row for each application whose
/// argument is in the universe, equal ones once, and then null or 0. A pointer outside the universe is null. Fields are given
/// by their places in the order of declarations, counted from 0. It asks for values of the names' sorts, of which those of
/// sort idx have magnitudes of at most 10^37. `Err` says that memory was wanting.
pub fn field_tables(
    alloc: Global,
    size: u32,
    own: &[u32],
    words: &[Text],
    names: &Names,
    values: &[Frac],
) -> Result<List<Table>, AllocError>
    requires fields { AllZip (IsField names.now) own.now words.now }
    requires fit { IsFitNames names.now }
    requires sorted { HaveSorts (sorts names.now) values.now }
    requires small { AreSmallIdx (sorts names.now) values.now }
    ensures { IfOk result (λ tables. tables ≡ fields_tables size words.now names.now values.now) }
{
    let cut = cut_values(alloc, size, values)?;
    let mut tables = List::new(alloc);
    for (at, word) in words.iter().enumerate() {
        if at >= own.len() {
            return Ok(tables);
        }
        let cut = cut.as_slice();
        tables.push(field_table(alloc, size, own[at], word, names, values, cut)?)?;
    }
    Ok(tables)
}

/// The table of one field, where these are the values with pointers outside the universe being null.
fn field_table(
    alloc: Global,
    size: u32,
    func: u32,
    word: &Text,
    names: &Names,
    values: &[Frac],
    cut: &[Frac],
) -> Result<Table, AllocError>
    requires field { IsField names.now func word.now }
    requires fit { IsFitNames names.now }
    requires sorted { HaveSorts (sorts names.now) values.now }
    requires small { AreSmallIdx (sorts names.now) values.now }
    requires cut { cut.now ≡ cut_values size values.now }
    ensures { IfOk result (λ made. made ≡ field_table size (gives names.now) (definition_facts names.now.signatures values.now names.now.definitions) word.now) }
{
    let definitions = names.definitions();
    let places = inside_places(alloc, size, definitions, names.of_function(func), values)?;
    let seen = if is_ptr(names.signature(func).result) {
        cut
    } else {
        values
    };
    table(alloc, word, 1, definitions, places.as_slice(), seen)
}

/// Those of these places of definitions, counted from 0, whose application has its argument in the universe.
fn inside_places(
    alloc: Global,
    size: u32,
    definitions: &[Def],
    places: &[u32],
    values: &[Frac],
) -> Result<List<u32>, AllocError>
    requires inside { All (λ place. place < length definitions.now) places.now }
    requires small { All (HasSmallSums values.now) definitions.now }
    ensures { IfOk result (λ found. found ≡ inside_places size values.now definitions.now places.now) }
{
    let mut found = List::new(alloc);
    for place in places {
        if is_inside(size, &definitions[*place as usize], values) {
            found.push(*place)?;
        }
    }
    Ok(found)
}

/// Whether an application has its argument in a universe of so many pointers.
fn is_inside(size: u32, definition: &Def, values: &[Frac]) -> bool
    requires { HasSmallSums values.now definition.now }
    ensures { result ≡ is_inside size values.now (Some definition.now) }
{
    is_below(first_value(args_of(&definition.body), values), size)
}

/// Whether a number is below a whole one.
fn is_below(value: Frac, size: u32) -> bool
    ensures { result ≡ lt_ℚ value (whole (pos size)) }
{
    match Frac::cmp(value, Frac::whole(Whole::new(size as i128))) {
        Ordering::Less => true,
        Ordering::Equal | Ordering::Greater => false,
    }
}

/// Each value, or null for one past the universe.
fn cut_values(alloc: Global, size: u32, values: &[Frac]) -> Result<List<Frac>, AllocError>
    ensures { IfOk result (λ found. found ≡ cut_values size values.now) }
{
    let mut found = List::new(alloc);
    for value in values {
        found.push(cut(size, *value))?;
    }
    Ok(found)
}

/// A pointer, or null for one past the universe.
fn cut(size: u32, value: Frac) -> Frac
    ensures { result ≡ cut size value }
{
    if is_below(value, size) { value } else { zero() }
}
