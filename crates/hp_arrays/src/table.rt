//! The tables of arrays.
ghost use Rattle.std.specs.Prelude.{◌≡◌, ◌<◌, IfOk, length};
ghost use Rattle.std.specs.List.{All};
ghost use Rattle.hp_lit.specs.Sorts.{HaveSorts};
ghost use Rattle.hp_defs.specs.Fit.{IsFitNames};
ghost use Rattle.hp_defs.specs.Names.{sorts};
ghost use Rattle.hp_class.specs.Small.{AreSmallIdx};
ghost use Rattle.hp_arrays.specs.Arrays.{arrays_tables};

use hp_defs::Names;
use hp_model::Table;
use hp_num::{Frac, List, Text};
use hp_tables::step_table;
use std::alloc::{AllocError, Global};

/// The tables of arrays with these words, in their order: from each index of an element on, up to the next one, its value,
/// and before the least one the first value. Arrays are given by their places in the order of declarations, counted from 0.
/// It asks for values of the names' sorts, of which those of sort idx have magnitudes of at most 10^37. `Err` says that
/// memory was wanting.
pub fn array_tables(
    alloc: Global,
    own: &[u32],
    words: &[Text],
    names: &Names,
    values: &[Frac],
) -> Result<List<Table>, AllocError>
    requires known { All (λ func. func < length names.now.signatures) own.now }
    requires fit { IsFitNames names.now }
    requires sorted { HaveSorts (sorts names.now) values.now }
    requires small { AreSmallIdx (sorts names.now) values.now }
    ensures { IfOk result (λ tables. tables ≡ arrays_tables own.now words.now names.now values.now) }
{
    let mut tables = List::new(alloc);
    for (at, func) in own.iter().enumerate() {
        if at >= words.len() {
            return Ok(tables);
        }
        tables.push(step_table(alloc, *func, &words[at], names, values)?)?;
    }
    Ok(tables)
}
