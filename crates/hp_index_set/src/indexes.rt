//! Indexes in the order of their first occurrence, each once.

ghost use Rattle.std.specs.Prelude.{◌≡◌, OnOk};
ghost use Rattle.std.specs.List.{list_any};
ghost use Rattle.hp_lit.specs.declared.line.Arg.TheVariants.{Index};
ghost use Rattle.hp_index_set.specs.IndexSet.{same_base, same_index, with_index, with_indexes};

use hp_lit::{Arg, Name};
use hp_num::List;
use std::alloc::AllocError;

/// Adds the indexes that are not there yet, in their order. An argument that is no index is added each time. `Err` says that
/// memory was wanting.
pub fn add_indexes(indexes: &mut List<Arg>, more: &[Arg]) -> Result<(), AllocError>
    ensures { OnOk result (indexes.new ≡ with_indexes indexes.old more.now) }
{
    for index in more {
        add_index(indexes, index)?;
    }
    Ok(())
}

/// Adds an index, unless it is there. `Err` says that memory was wanting.
pub fn add_index(indexes: &mut List<Arg>, index: &Arg) -> Result<(), AllocError>
    ensures { OnOk result (indexes.new ≡ with_index indexes.old index.now) }
{
    if is_among(indexes.as_slice(), index) {
        Ok(())
    } else {
        indexes.push(*index)
    }
}

/// Whether an index is among others.
fn is_among(indexes: &[Arg], index: &Arg) -> bool
    ensures { result ≡ list_any (same_index index.now) indexes.now }
{
    indexes.iter().any(|other| same_index(index, other))
}

/// Whether two arguments are one index.
fn same_index(left: &Arg, right: &Arg) -> bool
    ensures { result ≡ same_index left.now right.now }
{
    match left {
        Arg::Index { base, offset } => is_index(*base, *offset, right),
        Arg::Number(_) | Arg::Named(_) | Arg::Null => false,
    }
}

/// Whether an argument is the index of this name plus this whole number.
fn is_index(base: Option<Name>, offset: i128, arg: &Arg) -> bool
    ensures { result ≡ same_index (Index base offset) arg.now }
{
    match arg {
        Arg::Index {
            base: other,
            offset: number,
        } => same_base(base, *other) && offset == *number,
        Arg::Number(_) | Arg::Named(_) | Arg::Null => false,
    }
}

/// Whether the two names are one, or there is none on both sides.
fn same_base(left: Option<Name>, right: Option<Name>) -> bool
    ensures { result ≡ same_base left right }
{
    match left {
        None => match right {
            None => true,
            Some(_) => false,
        },
        Some(left) => match right {
            None => false,
            Some(right) => left.0 == right.0,
        },
    }
}
