//! The decisions that say nothing of chains and may give no answer: by the simplex alone, and by the descent of single
//! components where that gives up.
ghost use Rattle.std.specs.Prelude.{◌≤◌, IfOk, length};
ghost use Rattle.std.specs.List.{All};
ghost use Rattle.hp_tree.specs.Limits.{most_rows};
ghost use Rattle.hp_lit.specs.Fit.{IsFit};
ghost use Rattle.hp_diff.specs.Rows.{IsPoint};
ghost use Rattle.hp_ptreq.specs.Rows.{ArePointers};
ghost use Rattle.hp_path.specs.Kinds.{idx_lits, ptr_lits};
ghost use Rattle.hp_path.specs.Parted.{AreParts};
ghost use Rattle.hp_path.specs.Decided.{DecidesAt, DecidesPatiently, DecidesQuickly};

use crate::components::{Apart, Pace, decide_nums};
use crate::pairs::decide_pairs;
use crate::parting::{Parts, parts_of};
use crate::placing::values_for;
use crate::rows::decide_rows;
use hp_diff::DiffAnswer;
use hp_leaf::LeafProof;
use hp_lit::{Lit, NameValue, Valuation};
use hp_num::List;
use hp_ptreq::PtrAnswer;
use hp_tree::Sort;
use std::alloc::{AllocError, Global};

/// Values that make all literals true, the evidence that there are none, or no answer.
#[derive(Drop)]
pub enum Quick {
    /// A value for each name.
    Values(Valuation),
    /// A leaf over the literals, which count from 1.
    Leaf(LeafProof),
    /// The components of the literals over fractions that have no answer, each as the numbers of its literals, which
    /// count from 1 and rise. Literals that share a name are of one component.
    Unknown(List<List<u32>>),
}

/// Decides literals over pointers, over whole numbers and over fractions, as quickly as can be: no literals go to the
/// descent.
///
/// `Values` has a value for each name: whole numbers of a magnitude of at most 10^37 for names of sort idx, whole numbers
/// from 0 for names of sort ptr, fractions for names of sort num. `Leaf` is valid. `Unknown` names the components for which the simplex gives up, where no literals
/// that could be decided are contradictory. `Err` says that memory was wanting. It asks for literals as `decide` does.
pub fn decide_quickly(alloc: Global, sorts: &[Sort], lits: &[Lit]) -> Result<Quick, AllocError>
    requires fit { All (IsFit sorts.now) lits.now }
    requires few { length lits.now ≤ most_rows }
    ensures { IfOk result (DecidesQuickly sorts.now lits.now) }
{
    decide_at(alloc, sorts, lits, Pace::Quick)
}

/// As `decide_quickly`, but that each component for which the simplex gives up goes to the descent, whose time may be
/// exponential in its literals. `Unknown` names those over whose literals a number of the descent passes 2^127 - 1.
pub fn decide_patiently(alloc: Global, sorts: &[Sort], lits: &[Lit]) -> Result<Quick, AllocError>
    requires fit { All (IsFit sorts.now) lits.now }
    requires few { length lits.now ≤ most_rows }
    ensures { IfOk result (DecidesPatiently sorts.now lits.now) }
{
    decide_at(alloc, sorts, lits, Pace::Patient)
}

/// Decides literals at this pace.
fn decide_at(alloc: Global, sorts: &[Sort], lits: &[Lit], pace: Pace) -> Result<Quick, AllocError>
    requires fit { All (IsFit sorts.now) lits.now }
    requires few { length lits.now ≤ most_rows }
    ensures { IfOk result (DecidesAt sorts.now pace lits.now) }
{
    let parts = parts_of(alloc, lits)?;
    match decide_pairs(alloc, lits, &parts)? {
        PtrAnswer::Conflict { ne, path } => Ok(Quick::Leaf(LeafProof::Ptr { ne, path })),
        PtrAnswer::Classes(pointers) => match decide_rows(alloc, sorts, lits, &parts)? {
            DiffAnswer::Cycle(steps) => Ok(Quick::Leaf(LeafProof::Idx(steps))),
            DiffAnswer::Point(point) => {
                decide_over(alloc, sorts, lits, &parts, pointers, point, pace)
            }
        },
    }
}

/// As `decide_at`, with values that make the literals over pointers and those over whole numbers true.
fn decide_over(
    alloc: Global,
    sorts: &[Sort],
    lits: &[Lit],
    parts: &Parts,
    pointers: List<NameValue>,
    point: List<NameValue>,
    pace: Pace,
) -> Result<Quick, AllocError>
    requires fit { All (IsFit sorts.now) lits.now }
    requires few { length lits.now ≤ most_rows }
    requires parts { AreParts lits.now parts.now }
    requires pointers { ArePointers (ptr_lits lits.now) pointers }
    requires point { IsPoint (idx_lits lits.now) point }
    ensures { IfOk result (DecidesAt sorts.now pace lits.now) }
{
    match decide_nums(alloc, sorts, lits, parts, pace)? {
        Apart::Point(values) => {
            let point = point.as_slice();
            let values = values_for(alloc, sorts, lits, pointers, point, values.as_slice())?;
            Ok(Quick::Values(values))
        }
        Apart::Farkas(shares) => Ok(Quick::Leaf(LeafProof::Num(shares))),
        Apart::Unknown(components) => Ok(Quick::Unknown(components)),
    }
}
