//! The decision that speaks of chains: all literals over fractions at once, by dimension descent.
ghost use Rattle.std.specs.Prelude.{◌≤◌, length};
ghost use Rattle.std.specs.List.{All};
ghost use Rattle.hp_tree.specs.Limits.{most_rows};
ghost use Rattle.hp_diff.specs.Rows.{IsPoint};
ghost use Rattle.hp_ptreq.specs.Rows.{ArePointers};
ghost use Rattle.hp_lit.specs.Fit.{IsFit};
ghost use Rattle.hp_path.specs.Kinds.{idx_lits, ptr_lits};
ghost use Rattle.hp_path.specs.Decided.{Decides};
ghost use Rattle.hp_path.specs.Parted.{AreParts};

use crate::pairs::decide_pairs;
use crate::parting::{Parts, parts_of};
use crate::placing::values_for;
use crate::rows::decide_rows;
use hp_descent::{ChainAnswer, DescentErr, decide_chain};
use hp_diff::DiffAnswer;
use hp_leaf::{LeafProof, renumber_shares};
use hp_lit::{Lit, NameValue, Valuation};
use hp_num::List;
use hp_ptreq::PtrAnswer;
use hp_tree::Sort;
use std::alloc::Global;

/// Values that make all literals true, or the evidence that there are none.
#[derive(Drop)]
pub enum Decision {
    /// A value for each name, and the chain of the literals over fractions whose point gives the values of sort num: row
    /// numbers from 1, that of t first and then those of these literals, which fall.
    Values { values: Valuation, chain: List<u32> },
    /// A leaf over the literals, which count from 1.
    Leaf(LeafProof),
}

/// Decides literals over pointers, over whole numbers and over fractions, in this order. `sorts` has a sort for each name.
///
/// `Values` has a value for each name: whole numbers of a magnitude of at most 10^37 for names of sort idx; whole numbers
/// from 0 for names of sort ptr; for names of sort num those of the point of the chain, and 0 where a name occurs in no
/// literal. `Leaf` is valid. `Strain` comes only where a number of the descent over the literals over fractions passes
/// 2^127 - 1, and names the first one; `Memory` says that memory was wanting.
///
/// It asks for at most 100,000 literals. Each is over fractions, of names of sort num that rise strictly and with no number
/// above 2^127 - 1 in magnitude; over whole numbers, of names of sort idx and with a bound of a magnitude of at most 10^25;
/// or over pointers, of names of sort ptr.
pub fn decide(alloc: Global, sorts: &[Sort], lits: &[Lit]) -> Result<Decision, DescentErr>
    requires fit { All (IsFit sorts.now) lits.now }
    requires few { length lits.now ≤ most_rows }
    ensures { Decides sorts.now lits.now result }
{
    let parts = parts_of(alloc, lits)?;
    match decide_pairs(alloc, lits, &parts)? {
        PtrAnswer::Conflict { ne, path } => Ok(Decision::Leaf(LeafProof::Ptr { ne, path })),
        PtrAnswer::Classes(pointers) => match decide_rows(alloc, sorts, lits, &parts)? {
            DiffAnswer::Cycle(steps) => Ok(Decision::Leaf(LeafProof::Idx(steps))),
            DiffAnswer::Point(point) => decide_over(alloc, sorts, lits, &parts, pointers, point),
        },
    }
}

/// As `decide`, with values that make the literals over pointers and those over whole numbers true.
fn decide_over(
    alloc: Global,
    sorts: &[Sort],
    lits: &[Lit],
    parts: &Parts,
    pointers: List<NameValue>,
    point: List<NameValue>,
) -> Result<Decision, DescentErr>
    requires fit { All (IsFit sorts.now) lits.now }
    requires few { length lits.now ≤ most_rows }
    requires parts { AreParts lits.now parts.now }
    requires pointers { ArePointers (ptr_lits lits.now) pointers }
    requires point { IsPoint (idx_lits lits.now) point }
    ensures { Decides sorts.now lits.now result }
{
    match decide_chain(alloc, parts.nums.as_slice())? {
        ChainAnswer::Farkas(shares) => {
            let shares = renumber_shares(alloc, parts.num_places.as_slice(), shares.as_slice())?;
            Ok(Decision::Leaf(LeafProof::Num(shares)))
        }
        ChainAnswer::Point { chain, values } => {
            let point = point.as_slice();
            let values = values_for(alloc, sorts, lits, pointers, point, values.as_slice())?;
            Ok(Decision::Values { values, chain })
        }
    }
}
