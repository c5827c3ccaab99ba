//! The check of a cycle of difference bounds: first whether the steps are rows of the path that lead back to where
//! they begin, and only then the sum of their bounds, step by step.
ghost use Rattle.std.specs.Prelude.{◌≡◌, List, Option, Ok, pos, IfSome, IfNone, true, false};
ghost use Rattle.std.specs.List.{All};
ghost use Rattle.hp_lit.specs.declared.literal.IdxLit.{IdxLit};
ghost use Rattle.hp_lit.specs.Cycle.{AreRowsOf, IsRowOf, IsValidIdx, turned};
ghost use Rattle.hp_leaf.specs.Check.{HasNarrowBound, IsCheckedCycle, IsCycle, LinkedFrom, sum_from};

use crate::side::is_same;
use hp_lit::{IdxLit, Lit, Name, Step};
use hp_num::{Wide, plus};

/// The sum so far.
#[derive(Clone, Copy)]
struct Total {
    sum: i128,
}

/// The literal as it stands, or turned about.
fn row_of(lit: IdxLit, forward: bool) -> IdxLit
    requires { HasNarrowBound (Lit.Idx lit) }
    ensures { result ≡ turned lit forward }
{
    if forward {
        lit
    } else {
        IdxLit {
            exact: lit.exact,
            left: lit.right,
            right: lit.left,
            bound: -lit.bound,
        }
    }
}

/// The row of a step, where it names a literal over whole numbers, turned about only for an equality.
fn row_at(path: &[Lit], step: Step) -> Option<IdxLit>
    requires { All HasNarrowBound path.now }
    ensures some { IfSome result (λ row. IsRowOf path.now step row) }
    ensures none { IfNone result ((row : IdxLit) → IsRowOf path.now step row → ⊥) }
{
    let number = step.lit as usize;
    if number == 0 || path.len() < number {
        return None;
    }
    match &path[number - 1] {
        Lit::Idx(lit) => {
            if step.forward || lit.exact {
                Some(row_of(*lit, step.forward))
            } else {
                None
            }
        }
        Lit::Num(_) => None,
        Lit::Ptr(_) => None,
    }
}

/// Whether the steps lead from a name back to it.
fn leads_back(path: &[Lit], steps: &[Step], start: Option<Name>) -> bool
    requires { All HasNarrowBound path.now }
    ensures yes { result ≡ true → LinkedFrom path.now start steps.now start }
    ensures no { result ≡ false → LinkedFrom path.now start steps.now start → ⊥ }
{
    let mut at = start;
    for step in steps {
        match row_at(path, *step) {
            None => return false,
            Some(row) => {
                if !is_same(at, row.left) {
                    return false;
                }
                at = row.right;
            }
        }
    }
    is_same(at, start)
}

/// Whether the steps are rows of the path and a cycle.
fn is_cycle(path: &[Lit], steps: &[Step]) -> bool
    requires { All HasNarrowBound path.now }
    ensures yes { result ≡ true → IsCycle path.now steps.now }
    ensures no { result ≡ false → IsCycle path.now steps.now → ⊥ }
{
    if steps.len() == 0 {
        return leads_back(path, steps, None);
    }
    match row_at(path, steps[0]) {
        None => false,
        Some(row) => leads_back(path, steps, row.left),
    }
}

/// The sum of the bounds, step by step.
fn add_up(path: &[Lit], steps: &[Step]) -> Result<i128, Wide>
    requires { All HasNarrowBound path.now }
    ensures { (rows : List IdxLit) → AreRowsOf path.now steps.now rows → result ≡ sum_from (pos 0) rows }
{
    let mut total = Total { sum: 0 };
    for step in steps {
        match row_at(path, *step) {
            None => {}
            Some(row) => {
                total = Total {
                    sum: plus(total.sum, row.bound)?,
                };
            }
        }
    }
    Ok(total.sum)
}

/// Whether the steps are a cycle whose bounds add to less than 0.
pub fn check_idx(path: &[Lit], steps: &[Step]) -> Result<bool, Wide>
    requires { All HasNarrowBound path.now }
    ensures checked { IsCheckedCycle path.now steps.now result }
    ensures valid { result ≡ Ok true → IsValidIdx path.now steps.now }
    ensures invalid { result ≡ Ok false → IsValidIdx path.now steps.now → ⊥ }
{
    if !is_cycle(path, steps) {
        return Ok(false);
    }
    let sum = add_up(path, steps)?;
    Ok(sum < 0)
}
