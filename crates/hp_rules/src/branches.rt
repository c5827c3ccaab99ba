//! Cases, and the bounds that clauses add to them.

ghost use Rattle.std.specs.Prelude.{◌≡◌, ◌<◌, ◌^◌, List, length, nat_eq, position, IfOk, ◌&&◌};
ghost use Rattle.hp_linear.specs.Answers.{Answers};
ghost use Rattle.hp_linear.specs.Steps.{Refusable};
ghost use Rattle.hp_rules.specs.Answers.{CaseTo};
ghost use Rattle.hp_rules.specs.Rules.{bounded, first_row, gap_of, given, new_branch, same_rows, with_bound, with_case, with_gap, with_high, with_low, with_same};

use crate::copies::{copy_atoms, copy_given, copy_rows};
use crate::rows::rows_of;
use crate::same::same_rows;
use hp_cases::Bound;
use hp_lit::{NumLit, Refusal};
use hp_names::NameIndex;
use hp_norm::FlatClause;
use hp_num::List;
use hp_pairs::{Branch, Given};
use hp_tree::{Atom, Cmp, Term};
use std::alloc::{AllocError, Global};

/// Adds the bound of a clause to the case of its function with the same rows, or to a new one behind the others. `false` comes
/// where the case has such a bound, or where upper minus lower can't be computed.
pub fn with_case(
    alloc: Global,
    words: &NameIndex,
    func: u32,
    args: u8,
    clause: &FlatClause,
    rows: List<NumLit>,
    bound: Bound,
    branches: &mut List<Branch>,
) -> Result<bool, AllocError>
    requires few { length words.now < 2 ^ 28 }
    ensures { IfOk result (λ done. CaseTo (with_case words.now func args clause.now rows bound branches.old) branches.new done) }
{
    match case_at(branches.as_slice(), func, rows.as_slice()) {
        None => {
            let branch = new_branch(alloc, func, args, clause, rows)?;
            let more = with_bound(alloc, words, clause.clause, bound, &branch)?;
            match more {
                None => Ok(false),
                Some(more) => {
                    branches.push(more)?;
                    Ok(true)
                }
            }
        }
        Some(at) => {
            let more = with_bound(alloc, words, clause.clause, bound, branches.get(at))?;
            match more {
                None => Ok(false),
                Some(more) => {
                    branches.set(at, more);
                    Ok(true)
                }
            }
        }
    }
}

/// The place of the case of a function with the same rows.
fn case_at(branches: &[Branch], func: u32, rows: &[NumLit]) -> Option<usize>
    ensures { result ≡ position (λ b. nat_eq b.func func && same_rows b.rows rows.now) branches.now }
{
    for at in 0..branches.len() {
        if is_case(&branches[at], func, rows) {
            return Some(at);
        }
    }
    None
}

/// Whether this is the case of a function with the same rows.
fn is_case(branch: &Branch, func: u32, rows: &[NumLit]) -> bool
    ensures { result ≡ (nat_eq branch.now.func func && same_rows branch.now.rows rows.now) }
{
    branch.func == func && same_rows(branch.rows.as_slice(), rows)
}

/// A case without bounds.
fn new_branch(
    alloc: Global,
    func: u32,
    args: u8,
    clause: &FlatClause,
    rows: List<NumLit>,
) -> Result<Branch, AllocError>
    ensures { IfOk result (λ branch. branch ≡ new_branch func args clause.now rows) }
{
    Ok(Branch {
        func,
        args,
        clause: clause.clause,
        guard: copy_atoms(alloc, clause.guard.as_slice())?,
        rows,
        low: None,
        high: None,
        gap: None,
    })
}

/// A case with a further bound, or `None` where it has such a one, or where upper minus lower can't be computed.
fn with_bound(
    alloc: Global,
    words: &NameIndex,
    clause: u32,
    bound: Bound,
    branch: &Branch,
) -> Result<Option<Branch>, AllocError>
    requires few { length words.now < 2 ^ 28 }
    ensures { IfOk result (λ more. more ≡ with_bound words.now clause bound branch.now) }
{
    match bound {
        Bound::Low(term) => with_low(alloc, words, clause, term, branch),
        Bound::High(term) => with_high(alloc, words, clause, term, branch),
        Bound::Same(term) => with_same(alloc, clause, term, branch),
    }
}

/// A case with a further lower bound.
fn with_low(
    alloc: Global,
    words: &NameIndex,
    clause: u32,
    term: Term,
    branch: &Branch,
) -> Result<Option<Branch>, AllocError>
    requires few { length words.now < 2 ^ 28 }
    ensures { IfOk result (λ more. more ≡ with_low words.now clause term branch.now branch.now.low branch.now.high) }
{
    if branch.low.is_some() {
        return Ok(None);
    }
    match &branch.high {
        None => {
            let low = Given { clause, term };
            let more = bounded(alloc, branch, Some(low), None)?;
            Ok(Some(more))
        }
        Some(high) => {
            let gap = gap_of(alloc, words, &term, &high.term);
            let high = copy_given(alloc, high)?;
            let low = Given { clause, term };
            let more = bounded(alloc, branch, Some(low), Some(high))?;
            with_gap(alloc, more, gap)
        }
    }
}

/// A case with a further upper bound.
fn with_high(
    alloc: Global,
    words: &NameIndex,
    clause: u32,
    term: Term,
    branch: &Branch,
) -> Result<Option<Branch>, AllocError>
    requires few { length words.now < 2 ^ 28 }
    ensures { IfOk result (λ more. more ≡ with_high words.now clause term branch.now branch.now.low branch.now.high) }
{
    if branch.high.is_some() {
        return Ok(None);
    }
    match &branch.low {
        None => {
            let high = Given { clause, term };
            let more = bounded(alloc, branch, None, Some(high))?;
            Ok(Some(more))
        }
        Some(low) => {
            let gap = gap_of(alloc, words, &low.term, &term);
            let low = copy_given(alloc, low)?;
            let high = Given { clause, term };
            let more = bounded(alloc, branch, Some(low), Some(high))?;
            with_gap(alloc, more, gap)
        }
    }
}

/// A case without bounds with both of them, which are one term.
fn with_same(
    alloc: Global,
    clause: u32,
    term: Term,
    branch: &Branch,
) -> Result<Option<Branch>, AllocError>
    ensures { IfOk result (λ more. more ≡ with_same clause term branch.now branch.now.low branch.now.high) }
{
    if branch.low.is_some() || branch.high.is_some() {
        return Ok(None);
    }
    let low = Given {
        clause,
        term: term.copy(alloc)?,
    };
    let high = Given { clause, term };
    let more = bounded(alloc, branch, Some(low), Some(high))?;
    Ok(Some(more))
}

/// An equal case but for these bounds, without a gap where it has none.
fn bounded(
    alloc: Global,
    branch: &Branch,
    low: Option<Given>,
    high: Option<Given>,
) -> Result<Branch, AllocError>
    ensures { IfOk result (λ more. more ≡ bounded branch.now low high) }
{
    Ok(Branch {
        func: branch.func,
        args: branch.args,
        clause: branch.clause,
        guard: copy_atoms(alloc, branch.guard.as_slice())?,
        rows: copy_rows(alloc, branch.rows.as_slice())?,
        low,
        high,
        gap: copy_gap(alloc, &branch.gap)?,
    })
}

/// An equal literal, where there is one.
fn copy_gap(alloc: Global, gap: &Option<NumLit>) -> Result<Option<NumLit>, AllocError>
    ensures { IfOk result (λ copy. copy ≡ gap.now) }
{
    match gap {
        None => Ok(None),
        Some(row) => {
            let copy = row.copy(alloc)?;
            Ok(Some(copy))
        }
    }
}

/// The literal that an upper bound is below a lower one.
fn gap_of(
    alloc: Global,
    words: &NameIndex,
    low: &Term,
    high: &Term,
) -> Result<List<NumLit>, Refusal>
    requires few { length words.now < 2 ^ 28 }
    ensures { Answers (gap_of words.now low.now high.now) result }
{
    let mut atoms = List::new(alloc);
    let atom = Atom {
        left: high.copy(alloc)?,
        cmp: Cmp::Lt,
        right: low.copy(alloc)?,
    };
    atoms.push(atom)?;
    rows_of(alloc, words, atoms.as_slice())
}

/// A case with the first of these literals as its gap, or `None` where they can't be formed.
fn with_gap(
    alloc: Global,
    branch: Branch,
    rows: Result<List<NumLit>, Refusal>,
) -> Result<Option<Branch>, AllocError>
    ensures { (wanted : Refusable (List NumLit)) → Answers wanted rows → IfOk result (λ more. more ≡ with_gap branch wanted) }
{
    match rows {
        Ok(rows) => Ok(Some(Branch {
            func: branch.func,
            args: branch.args,
            clause: branch.clause,
            guard: branch.guard,
            rows: branch.rows,
            low: branch.low,
            high: branch.high,
            gap: first_row(alloc, rows.as_slice())?,
        })),
        Err(Refusal::Wide) => Ok(None),
        Err(Refusal::Memory) => Err(AllocError),
    }
}

/// The first of literals.
fn first_row(alloc: Global, rows: &[NumLit]) -> Result<Option<NumLit>, AllocError>
    ensures { IfOk result (λ row. row ≡ first_row rows.now) }
{
    if rows.len() == 0 {
        Ok(None)
    } else {
        let row = rows[0].copy(alloc)?;
        Ok(Some(row))
    }
}
