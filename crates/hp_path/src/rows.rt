//! The literals over whole numbers of a path, decided as rows.
ghost use Rattle.std.specs.Prelude.{◌≤◌, IfOk, length};
ghost use Rattle.std.specs.List.{All};
ghost use Rattle.hp_tree.specs.Limits.{most_rows};
ghost use Rattle.hp_lit.specs.Fit.{IsFit};
ghost use Rattle.hp_path.specs.Parted.{AreParts};
ghost use Rattle.hp_path.specs.inner.Sides.{DecidesRows};

use crate::parting::Parts;
use hp_diff::{DiffAnswer, decide};
use hp_leaf::renumber_steps;
use hp_lit::Lit;
use hp_tree::Sort;
use std::alloc::{AllocError, Global};

/// Values that make the literals over whole numbers true, or a cycle of them in the numbers that literals have along the
/// path.
pub fn decide_rows(
    alloc: Global,
    sorts: &[Sort],
    lits: &[Lit],
    parts: &Parts,
) -> Result<DiffAnswer, AllocError>
    requires fit { All (IsFit sorts.now) lits.now }
    requires few { length lits.now ≤ most_rows }
    requires parts { AreParts lits.now parts.now }
    ensures { IfOk result (λ answer. DecidesRows lits.now answer) }
{
    match decide(alloc, parts.rows.as_slice())? {
        DiffAnswer::Point(point) => Ok(DiffAnswer::Point(point)),
        DiffAnswer::Cycle(steps) => {
            let steps = renumber_steps(alloc, parts.row_places.as_slice(), steps.as_slice())?;
            Ok(DiffAnswer::Cycle(steps))
        }
    }
}
