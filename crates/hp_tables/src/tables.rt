//! Tables of functions through the points of their applications.
ghost use Rattle.std.specs.Prelude.{◌≡◌, ◌<◌, ◌++◌, ◌∷◌, [], IfOk, OnOk, List as Items, length, map, slice_index_or};
ghost use Rattle.std.specs.List.{All};
ghost use Rattle.hp_tree.specs.Value.{Word};
ghost use Rattle.hp_lit.specs.Sorts.{HaveSorts};
ghost use Rattle.hp_defs.specs.Fit.{IsFitNames};
ghost use Rattle.hp_defs.specs.Names.{sorts};
ghost use Rattle.hp_base.specs.Congruence.{point_of};
ghost use Rattle.hp_local.specs.Frame.{Fact};
ghost use Rattle.hp_local.specs.Free.{free_table};
ghost use Rattle.hp_local.specs.Rows.{argument_words, point_guard};
ghost use Rattle.hp_tables.specs.Kept.{AreKept};
ghost use Rattle.hp_class.specs.Places.{points_at};
ghost use Rattle.hp_class.specs.Frame.{fact_of, facts_of};
ghost use Rattle.hp_class.specs.Small.{AreSmallIdx, HasSmallSums};

use crate::index::{PointIndex, coordinates};
use crate::values::{arg_values, args_of, name_value};
use hp_defs::Names;
use hp_lit::Def;
use hp_model::{Row, Table};
use hp_num::{Frac, List, Text};
use hp_shapes::{number_term, zero};
use hp_tree::{Atom, Cmp, MOST_ARGUMENTS, Term};
use std::alloc::{AllocError, Global};

/// The table of a function of `args` arguments through its applications, which are the definitions at these places, counted
/// from 0: a row for each in their order, equal ones once, and then 0. Arguments are found again by a hash.
pub fn table(
    alloc: Global,
    func: &Text,
    args: u8,
    definitions: &[Def],
    places: &[u32],
    values: &[Frac],
) -> Result<Table, AllocError>
    requires inside { All (λ place. place < length definitions.now) places.now }
    requires small { All (HasSmallSums values.now) definitions.now }
    ensures { IfOk result (λ made. made ≡ free_table func.now args (map (fact_of func.now values.now) (points_at definitions.now places.now))) }
{
    let mut index = PointIndex::new(alloc);
    let mut rows = List::new(alloc);
    for place in places {
        let definition = &definitions[*place as usize];
        add_point(alloc, &mut index, &mut rows, definition, values)?;
    }
    Ok(Table {
        func: func.copy(alloc)?,
        args,
        rows,
        otherwise: Term::Number(zero()),
    })
}

/// The table of the function at a place in the order of declarations, counted from 0, through its applications: a row for
/// each in the order of their making, equal arguments once, and then 0. It asks for values of the names' sorts, of which
/// those of sort idx have magnitudes of at most 10^37. `Err` says that memory was wanting.
pub fn free_table(
    alloc: Global,
    func: u32,
    word: &Text,
    args: u8,
    names: &Names,
    values: &[Frac],
) -> Result<Table, AllocError>
    requires known { func < length names.now.signatures }
    requires fit { IsFitNames names.now }
    requires sorted { HaveSorts (sorts names.now) values.now }
    requires small { AreSmallIdx (sorts names.now) values.now }
    ensures { IfOk result (λ made. made ≡ free_table word.now args (facts_of func word.now names.now values.now)) }
{
    let places = names.of_function(func);
    table(alloc, word, args, names.definitions(), places, values)
}

/// Adds the row of an application where none has its arguments.
fn add_point(
    alloc: Global,
    index: &mut PointIndex,
    rows: &mut List<Row>,
    definition: &Def,
    values: &[Frac],
) -> Result<(), AllocError>
    requires { HasSmallSums values.now definition.now }
    ensures { (word : Word) (facts : Items Fact) → AreKept facts index.old rows.old → OnOk result (AreKept (facts ++ fact_of word values.now (point_of definition.now) ∷ []) index.new rows.new) }
{
    let args = arg_values(alloc, args_of(&definition.body), values)?;
    let point = coordinates(alloc, args.as_slice())?;
    match index.position(point.as_slice()) {
        Some(_) => Ok(()),
        None => {
            let value = name_value(definition.name, values);
            let guard = point_guard(alloc, args.as_slice())?;
            rows.push(Row {
                guard,
                value: number_term(alloc, value)?,
            })?;
            index.add(point)
        }
    }
}

/// The word of an argument in a table, counted from 0.
fn argument_word(at: usize) -> &'static [u8]
    requires { at < length argument_words }
    ensures { result.now ≡ slice_index_or argument_words at [] }
{
    match at {
        0 => b"$1",
        1 => b"$2",
        2 => b"$3",
        _ => b"$4",
    }
}

/// The guard that says that the arguments have these values.
#[tactic(auto, using(crate::proofs::Guards::guard_start))]
fn point_guard(alloc: Global, args: &[Frac]) -> Result<List<Atom>, AllocError>
    ensures { IfOk result (λ guard. guard ≡ point_guard argument_words args.now) }
{
    let mut guard = List::new(alloc);
    let mut at = 0;
    while at < MOST_ARGUMENTS && at < args.len() {
        let left = Term::Name(Text::from_slice(alloc, argument_word(at))?);
        let right = number_term(alloc, args[at])?;
        guard.push(Atom {
            left,
            cmp: Cmp::Eq,
            right,
        })?;
        at += 1;
    }
    Ok(guard)
}
