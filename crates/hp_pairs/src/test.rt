//! Tests: the rows of a pair, with what is said of it where some values meet them.

ghost use Rattle.std.specs.Prelude.{◌≡◌, ◌++◌, ◌∷◌, [], IfOk, OnOk, Some};
ghost use Rattle.hp_pairs.specs.Answers.{BranchIsFit, IsFitGap};
ghost use Rattle.hp_pairs.specs.Branches.{greater, lesser, order_pairs, overlap};
ghost use Rattle.hp_pairs.specs.Shown.{AreTestsFit, TestIsFit, pair_of, pairs_of};

use crate::branch::{Branch, Given};
use hp_lit::NumLit;
use hp_num::List;
use std::alloc::{AllocError, Global};

/// Rows that no values may all make true, of a function of so many arguments, with the rule that a clause breaks with
/// another one where some do.
#[derive(Drop)]
pub struct Test {
    pub rule: u8,
    pub clause: u32,
    pub other: u32,
    pub args: u8,
    pub rows: List<NumLit>,
}

/// The guard of a case with its upper bound below the lower one, where two clauses give these. `Err` says that memory was
/// wanting.
pub fn bounds_test(alloc: Global, branch: &Branch) -> Result<Option<Test>, AllocError>
    requires { BranchIsFit branch.now }
    ensures pairs { IfOk result (λ test. pairs_of test ≡ order_pairs branch.now branch.now.low branch.now.high branch.now.gap) }
    ensures fit { IfOk result AreTestsFit }
{
    match &branch.low {
        None => Ok(None),
        Some(low) => match &branch.high {
            None => Ok(None),
            Some(high) => match &branch.gap {
                None => Ok(None),
                Some(gap) => {
                    let test = gap_test(alloc, branch, low, high, gap)?;
                    Ok(Some(test))
                }
            },
        },
    }
}

/// The guard with this gap.
fn gap_test(
    alloc: Global,
    branch: &Branch,
    low: &Given,
    high: &Given,
    gap: &NumLit,
) -> Result<Test, AllocError>
    requires branch { BranchIsFit branch.now }
    requires gap { IsFitGap (Some gap.now) }
    ensures pair { IfOk result (λ test. pair_of test ∷ [] ≡ order_pairs branch.now (Some low.now) (Some high.now) (Some gap.now)) }
    ensures fit { IfOk result TestIsFit }
{
    let mut rows = List::new(alloc);
    push_copies(alloc, &mut rows, branch.rows.as_slice())?;
    rows.push(gap.copy(alloc)?)?;
    Ok(Test {
        rule: 9,
        clause: greater(low.clause, high.clause),
        other: lesser(low.clause, high.clause),
        args: branch.args,
        rows,
    })
}

/// The guards of an earlier case and of this one. `Err` says that memory was wanting.
pub fn overlap_test(alloc: Global, branch: &Branch, earlier: &Branch) -> Result<Test, AllocError>
    requires branch { BranchIsFit branch.now }
    requires earlier { BranchIsFit earlier.now }
    ensures pair { IfOk result (λ test. pair_of test ≡ overlap branch.now earlier.now) }
    ensures fit { IfOk result TestIsFit }
{
    let mut rows = List::new(alloc);
    push_copies(alloc, &mut rows, earlier.rows.as_slice())?;
    push_copies(alloc, &mut rows, branch.rows.as_slice())?;
    Ok(Test {
        rule: 8,
        clause: greater(branch.clause, earlier.clause),
        other: lesser(branch.clause, earlier.clause),
        args: branch.args,
        rows,
    })
}

fn greater(m: u32, n: u32) -> u32
    ensures { result ≡ greater m n }
{
    if m < n { n } else { m }
}

fn lesser(m: u32, n: u32) -> u32
    ensures { result ≡ lesser m n }
{
    if m < n { m } else { n }
}

/// Adds copies of these rows at the end.
fn push_copies(alloc: Global, rows: &mut List<NumLit>, more: &[NumLit]) -> Result<(), AllocError>
    ensures { OnOk result (rows.new ≡ rows.old ++ more.now) }
{
    for at in 0..more.len() {
        rows.push(more[at].copy(alloc)?)?;
    }
    Ok(())
}
