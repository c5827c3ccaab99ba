//! The component of one literal among others.
ghost use Rattle.std.specs.Prelude.{◌≡◌, ◌≤◌, ◌<◌, ◌+◌, IfOk, length};
ghost use Rattle.std.specs.List.{All};
ghost use Rattle.hp_tree.specs.Limits.{most_rows};
ghost use Rattle.hp_lit.specs.Fit.{IsFit};
ghost use Rattle.hp_path.specs.Kinds.{num_lits};
ghost use Rattle.hp_path.specs.Components.{AreLabels, IsComponentOfLast};
ghost use Rattle.hp_path.specs.Parted.{num_places};

use crate::chains::with_labels;
use crate::components::component_of;
use crate::labels::first_label;
use crate::parting::parts_of;
use hp_lit::{Lit, NumLit};
use hp_num::List;
use hp_tree::Sort;
use std::alloc::{AllocError, Global};

/// The label of the last literal, and 0 where there is none.
fn label_of_last(labels: &List<usize>, nums: &List<NumLit>) -> usize
    requires { AreLabels labels.now nums.now }
    ensures label { result ≡ Rattle.hp_path.specs.Components.label_of_last labels.now nums.now }
    ensures below { result < length labels.now + 1 }
{
    let count = nums.len();
    if count == 0 {
        return 0;
    }
    first_label(labels, nums.get(count - 1).parts.as_slice())
}

/// The literals over fractions that share a name, directly or through others, with the last of them, by their numbers,
/// which count from 1 and rise. `Err` says that memory was wanting. It asks for literals as `decide` does.
pub fn component_of_last(
    alloc: Global,
    sorts: &[Sort],
    lits: &[Lit],
) -> Result<List<u32>, AllocError>
    requires fit { All (IsFit sorts.now) lits.now }
    requires few { length lits.now ≤ most_rows }
    ensures { IfOk result (IsComponentOfLast (num_lits lits.now) (num_places 1 lits.now)) }
{
    let parts = parts_of(alloc, lits)?;
    let labelled = with_labels(alloc, sorts, parts.nums.as_slice())?;
    let label = label_of_last(&labelled.labels, &parts.nums);
    let component = component_of(alloc, &labelled, label, &parts)?;
    Ok(component.places)
}
