//! The literals over pointers of a path, decided as equalities and inequalities.
ghost use Rattle.std.specs.Prelude.{◌≤◌, IfOk, length};
ghost use Rattle.hp_tree.specs.Limits.{most_rows};
ghost use Rattle.hp_path.specs.Parted.{AreParts};
ghost use Rattle.hp_path.specs.inner.Sides.{DecidesPairs};

use crate::parting::Parts;
use hp_leaf::{place_at, renumber_links};
use hp_lit::Lit;
use hp_ptreq::{PtrAnswer, decide};
use std::alloc::{AllocError, Global};

/// Values that make the literals over pointers true, or a conflict of them in the numbers that literals have along the
/// path.
pub fn decide_pairs(alloc: Global, lits: &[Lit], parts: &Parts) -> Result<PtrAnswer, AllocError>
    requires few { length lits.now ≤ most_rows }
    requires parts { AreParts lits.now parts.now }
    ensures { IfOk result (λ answer. DecidesPairs lits.now answer) }
{
    match decide(alloc, parts.pairs.as_slice())? {
        PtrAnswer::Classes(values) => Ok(PtrAnswer::Classes(values)),
        PtrAnswer::Conflict { ne, path: links } => {
            let places = parts.pair_places.as_slice();
            let path = renumber_links(alloc, places, links.as_slice())?;
            Ok(PtrAnswer::Conflict {
                ne: place_at(places, ne),
                path,
            })
        }
    }
}
