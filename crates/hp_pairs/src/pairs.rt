//! The pairs of cases, one after the other.

ghost use Rattle.std.specs.Prelude.{◌++◌, [], map, Err};
ghost use Rattle.std.specs.List.{All};
ghost use Rattle.hp_defs.specs.Names.{count, words};
ghost use Rattle.hp_descent.specs.Answers.{IsSolution};
ghost use Rattle.hp_local.specs.Rows.{argument_words};
ghost use Rattle.hp_pairs.specs.Answers.{BranchIsFit, Separates};
ghost use Rattle.hp_pairs.specs.Branches.{branch_pairs, branches_of, order_pairs, overlap, pairs_behind, pairs_from};
ghost use Rattle.hp_pairs.specs.Shown.{Tells, TestIsFit, pair_of};

use crate::answer::{Outside, PairErr, PairStrain};
use crate::branch::Branch;
use crate::point::point;
use crate::test::{Test, bounds_test, overlap_test};
use hp_defs::Names;
use hp_descent::{DescentErr, NumAnswer};
use hp_lit::NameValue;
use hp_simplex::decide;
use std::alloc::Global;

/// Whether no values make the guards of two cases of one of so many functions true, and none a guard with the bounds of its
/// case out of order, where two clauses give these.
///
/// Pairs are tested function by function and case by case: its bounds, and then its guard with that of each earlier case.
/// `Outside` comes with the first pair that some values meet, and a point of it; `Strain` where a number passes 2^127 - 1 on
/// a pair, and no pair before it is met. `Memory` says that memory was wanting, or that a pair has 2^28 rows or more.
pub fn separate(
    alloc: Global,
    names: &Names,
    functions: u32,
    branches: &[Branch],
) -> Result<(), PairErr>
    requires fit { All BranchIsFit branches.now }
    ensures { Separates (words names.now ++ argument_words) (count names.now) (pairs_from branches.now 0 functions) result }
{
    for func in 0..functions {
        separate_function(alloc, names, func, branches)?;
    }
    Ok(())
}

/// The pairs of one function.
fn separate_function(
    alloc: Global,
    names: &Names,
    func: u32,
    branches: &[Branch],
) -> Result<(), PairErr>
    requires { All BranchIsFit branches.now }
    ensures { Separates (words names.now ++ argument_words) (count names.now) (pairs_behind [] (branches_of func branches.now)) result }
{
    for at in 0..branches.len() {
        let branch = &branches[at];
        if branch.func == func {
            separate_branch(alloc, names, func, &branches[..at], branch)?;
        }
    }
    Ok(())
}

/// The pairs of a case of a function: its bounds, and then its guard with that of each of the function's cases among these
/// earlier ones.
fn separate_branch(
    alloc: Global,
    names: &Names,
    func: u32,
    earlier: &[Branch],
    branch: &Branch,
) -> Result<(), PairErr>
    requires earlier { All BranchIsFit earlier.now }
    requires branch { BranchIsFit branch.now }
    ensures { Separates (words names.now ++ argument_words) (count names.now) (branch_pairs (branches_of func earlier.now) branch.now) result }
{
    separate_bounds(alloc, names, branch)?;
    separate_guards(alloc, names, func, earlier, branch)
}

/// The bounds of a case.
fn separate_bounds(alloc: Global, names: &Names, branch: &Branch) -> Result<(), PairErr>
    requires { BranchIsFit branch.now }
    ensures { Separates (words names.now ++ argument_words) (count names.now) (order_pairs branch.now branch.now.low branch.now.high branch.now.gap) result }
{
    match bounds_test(alloc, branch) {
        Ok(Some(test)) => decide_test(alloc, names, test),
        Ok(None) => Ok(()),
        Err(_) => Err(PairErr::Memory),
    }
}

/// The guard of a case with that of each of the function's cases among these earlier ones.
fn separate_guards(
    alloc: Global,
    names: &Names,
    func: u32,
    earlier: &[Branch],
    branch: &Branch,
) -> Result<(), PairErr>
    requires earlier { All BranchIsFit earlier.now }
    requires branch { BranchIsFit branch.now }
    ensures { Separates (words names.now ++ argument_words) (count names.now) (map (overlap branch.now) (branches_of func earlier.now)) result }
{
    for at in 0..earlier.len() {
        let other = &earlier[at];
        if other.func == func {
            separate_pair(alloc, names, branch, other)?;
        }
    }
    Ok(())
}

/// The guards of two cases.
fn separate_pair(
    alloc: Global,
    names: &Names,
    branch: &Branch,
    earlier: &Branch,
) -> Result<(), PairErr>
    requires branch { BranchIsFit branch.now }
    requires earlier { BranchIsFit earlier.now }
    ensures { Tells (words names.now ++ argument_words) (count names.now) (overlap branch.now earlier.now) result }
{
    match overlap_test(alloc, branch, earlier) {
        Ok(test) => decide_test(alloc, names, test),
        Err(_) => Err(PairErr::Memory),
    }
}

/// Whether no values make all rows of a test true.
fn decide_test(alloc: Global, names: &Names, test: Test) -> Result<(), PairErr>
    requires { TestIsFit test }
    ensures { Tells (words names.now ++ argument_words) (count names.now) (pair_of test) result }
{
    if test.rows.len() >= 1 << 28 {
        return Err(PairErr::Memory);
    }
    match decide(alloc, test.rows.as_slice()) {
        Ok(NumAnswer::Farkas(_)) => Ok(()),
        Ok(NumAnswer::Point(values)) => Err(outside(alloc, names, &test, values.as_slice())),
        Err(DescentErr::Strain(row)) => Err(PairErr::Strain(PairStrain {
            rule: test.rule,
            clause: test.clause,
            other: test.other,
            row,
        })),
        Err(DescentErr::Memory) => Err(PairErr::Memory),
    }
}

/// What is said of a test whose rows have this solution.
fn outside(alloc: Global, names: &Names, test: &Test, values: &[NameValue]) -> PairErr
    requires fit { TestIsFit test.now }
    requires solution { IsSolution test.now.rows values.now }
    ensures { Tells (words names.now ++ argument_words) (count names.now) (pair_of test.now) (Err result) }
{
    match point(alloc, names, test.args, values) {
        Ok(at) => PairErr::Outside(Outside {
            clause: test.clause,
            rule: test.rule,
            other: test.other,
            at,
        }),
        Err(_) => PairErr::Memory,
    }
}
