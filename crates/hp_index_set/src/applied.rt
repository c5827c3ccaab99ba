//! The arguments of applications among definitions.

ghost use Rattle.std.specs.Prelude.{◌≡◌, OnOk};
ghost use Rattle.hp_class.specs.Frame.{is_place};
ghost use Rattle.hp_index_set.specs.IndexSet.{applied_at, body_indexes, with_indexes};

use crate::indexes::add_indexes;
use hp_lit::{Arg, Body, Def};
use hp_num::List;
use std::alloc::AllocError;

/// Adds the arguments of the applications of these functions that are not there yet, in the order of their making. `Err` says
/// that memory was wanting.
pub fn add_applied(
    own: &[u32],
    definitions: &[Def],
    indexes: &mut List<Arg>,
) -> Result<(), AllocError>
    ensures { OnOk result (indexes.new ≡ with_indexes indexes.old (applied_at own.now definitions.now)) }
{
    for definition in definitions {
        add_arguments(own, &definition.body, indexes)?;
    }
    Ok(())
}

/// Adds the arguments of an application of one of these functions.
fn add_arguments(own: &[u32], body: &Body, indexes: &mut List<Arg>) -> Result<(), AllocError>
    ensures { OnOk result (indexes.new ≡ with_indexes indexes.old (body_indexes own.now body.now)) }
{
    match body {
        Body::Apply { func, args } => {
            if is_place(own, *func) {
                add_indexes(indexes, args.as_slice())
            } else {
                Ok(())
            }
        }
        Body::Sum(_) => Ok(()),
    }
}

/// Whether a function is one of these.
fn is_place(funcs: &[u32], func: u32) -> bool
    ensures { result ≡ is_place funcs.now func }
{
    funcs.iter().any(|other| *other == func)
}
