//! What is shown of a solution of a test: the values of the arguments, and those of the names that occur in its rows.

ghost use Rattle.std.specs.Prelude.{◌≡◌, ◌<◌, ◌≤◌, ◌++◌, [], IfOk, OnOk, map, slice_index_or};
ghost use Rattle.hp_tree.specs.Limits.{most_arguments};
ghost use Rattle.hp_local.specs.Rows.{argument_words};
ghost use Rattle.hp_defs.specs.Names.{count, words};
ghost use Rattle.hp_descent.specs.Values.{value_in};
ghost use Rattle.hp_pairs.specs.Shown.{argument_places, named_places};

use crate::answer::PlaceValue;
use hp_defs::{Names, word_of};
use hp_flatten::argument_word;
use hp_lit::{Name, NameValue};
use hp_num::{Frac, List, Text, Whole};
use std::alloc::{AllocError, Global};

/// The values of so many arguments, whose names stand behind all others, and then those of the other names that have one
/// in the solution, in its order. `Err` says that memory was wanting.
pub fn point(
    alloc: Global,
    names: &Names,
    args: u8,
    values: &[NameValue],
) -> Result<List<PlaceValue>, AllocError>
    requires { args ≤ most_arguments }
    ensures { IfOk result (λ at. at ≡ argument_places (words names.now ++ argument_words) (count names.now) args values.now ++ named_places (words names.now ++ argument_words) (count names.now) values.now) }
{
    let mut at = List::new(alloc);
    push_arguments(alloc, names, args, values, &mut at)?;
    push_named(alloc, names, values, &mut at)?;
    Ok(at)
}

/// Adds the values of the arguments.
fn push_arguments(
    alloc: Global,
    names: &Names,
    args: u8,
    values: &[NameValue],
    at: &mut List<PlaceValue>,
) -> Result<(), AllocError>
    requires { args ≤ most_arguments }
    ensures { OnOk result (at.new ≡ at.old ++ argument_places (words names.now ++ argument_words) (count names.now) args values.now) }
{
    let others = names.count() as u32;
    for place in 0..args {
        let name = argument_word(alloc, place as usize)?;
        let value = value_among(values, others + place as u32);
        at.push(PlaceValue { name, value })?;
    }
    Ok(())
}

/// Adds the values of the other names.
fn push_named(
    alloc: Global,
    names: &Names,
    values: &[NameValue],
    at: &mut List<PlaceValue>,
) -> Result<(), AllocError>
    ensures { OnOk result (at.new ≡ at.old ++ named_places (words names.now ++ argument_words) (count names.now) values.now) }
{
    let others = names.count() as u32;
    for k in 0..values.len() {
        let name = values[k].name;
        if name.0 < others {
            at.push(PlaceValue {
                name: name_word(alloc, names, name)?,
                value: values[k].value,
            })?;
        }
    }
    Ok(())
}

/// The value of a name in a solution, 0 where it has none.
fn value_among(values: &[NameValue], name: u32) -> Frac
    ensures { result ≡ value_in values.now name }
{
    for at in 0..values.len() {
        if values[at].name.0 == name {
            return values[at].value;
        }
    }
    Frac::whole(Whole::new(0))
}

/// The word of a constant or definition.
fn name_word(alloc: Global, names: &Names, name: Name) -> Result<Text, AllocError>
    requires { name.0 < count names.now }
    ensures { IfOk result (λ word. word ≡ slice_index_or (words names.now ++ argument_words) name.0 []) }
{
    let constants = names.constants().len();
    let at = name.0 as usize;
    if at < constants {
        names.constant_name(name).copy(alloc)
    } else {
        let word = word_of(alloc, (at - constants) as u64 + 1)?;
        Ok(word)
    }
}
