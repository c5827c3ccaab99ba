//! The index set of a group of arrays.

ghost use Rattle.std.specs.Prelude.{◌≡◌, IfOk};
ghost use Rattle.std.specs.List.{All};
ghost use Rattle.hp_norm.specs.Flat.{IsFlat};
ghost use Rattle.hp_index_set.specs.IndexSet.{index_set, or_zero};

use crate::applied::add_applied;
use crate::bounds::add_bounds;
use hp_defs::Names;
use hp_lit::Arg;
use hp_norm::FlatClause;
use hp_num::List;
use std::alloc::{AllocError, Global};

/// The index set of a group of functions of one index with these clauses: the arguments of the functions' applications, in the
/// order of their making, and then the bounds that guards put on variables, each once; 0 where there is none. Functions are
/// given by their places in the order of declarations, counted from 0.
///
/// A bound is a constant of sort idx, or none, plus a whole number: for `i <= c`, `c <= i` and `i = c` it is c, for `i < c` c
/// less 1, for `c < i` c and 1 more. `Err` says that memory was wanting.
pub fn index_set(
    alloc: Global,
    own: &[u32],
    clauses: &[FlatClause],
    names: &Names,
) -> Result<List<Arg>, AllocError>
    requires flat { All (IsFlat names.now) clauses.now }
    ensures { IfOk result (λ found. found ≡ index_set own.now clauses.now names.now) }
{
    let mut indexes = List::new(alloc);
    add_applied(own, names.definitions(), &mut indexes)?;
    add_bounds(alloc, names, clauses, &mut indexes)?;
    or_zero(indexes)
}

/// The index 0 where there is no other.
fn or_zero(indexes: List<Arg>) -> Result<List<Arg>, AllocError>
    ensures { IfOk result (λ found. found ≡ or_zero indexes) }
{
    let mut indexes = indexes;
    if indexes.len() == 0 {
        indexes.push(Arg::Index {
            base: None,
            offset: 0,
        })?;
    }
    Ok(indexes)
}
