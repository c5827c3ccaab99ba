//! Flattening of clauses with one application.

ghost use Rattle.std.specs.Prelude.{◌≡◌, IfOk};
ghost use Rattle.hp_flatten.specs.Flattening.{flattened};

use crate::application::Application;
use crate::equalities::add_equalities;
use crate::terms::flat_atoms;
use crate::words::argument_vars;
use hp_norm::FlatClause;
use std::alloc::{AllocError, Global};

/// The clause over the words of the arguments of its application: `$1` to `$4` in their order. A variable becomes the word of
/// the first argument that it is, and each other argument is said to be equal to its word at the end of the guard. `Err` says
/// that memory was wanting.
pub fn flatten(
    alloc: Global,
    clause: &FlatClause,
    application: &Application,
) -> Result<FlatClause, AllocError>
    ensures { IfOk result (λ flat. flat ≡ flattened application.now clause.now) }
{
    let vars = clause.vars.as_slice();
    let mut guard = flat_atoms(alloc, application, vars, clause.guard.as_slice())?;
    add_equalities(alloc, application, vars, &mut guard)?;
    let head = flat_atoms(alloc, application, vars, clause.head.as_slice())?;
    Ok(FlatClause {
        clause: clause.clause,
        item: clause.item,
        vars: argument_vars(alloc, application.args.len())?,
        guard,
        head,
    })
}
