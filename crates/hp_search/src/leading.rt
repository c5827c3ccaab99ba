//! What shows at a place by equalities: a leaf; the next of the lines that close the place, where those are known; or what
//! values of its own for each class of names show.
ghost use Rattle.std.specs.Prelude.{◌≡◌, ◌≤◌, IfOk, IfErr, IfSome, length};
ghost use Rattle.std.specs.List.{All};
ghost use Rattle.hp_tree.specs.Limits.{most_lines};
ghost use Rattle.hp_leaf.specs.Tree.{IsLine, IsOpenAt, place_lits};
ghost use Rattle.hp_search.specs.Lines.{AreFit};
ghost use Rattle.hp_search.specs.Search.{IsCauseWithin, Sees};
ghost use Rattle.hp_search.specs.inner.Singles.{AreSinglesOf};
ghost use Rattle.hp_search.specs.inner.Leading.{IsSeenBy};

use crate::classes::{Classes, classes_of};
use crate::known::{leaf_by, values_at};
use crate::literals::lits_of;
use crate::looking::{Seen, look_by_engines};
use crate::plan::{Plan, lines_left, renew};
use crate::searching::SearchErr;
use crate::truth::{Verdict, are_true, first_false, next_false};
use hp_lit::{Choice, Line, Lit, Valuation};
use hp_tree::Sort;
use std::alloc::{AllocError, Global};

/// What values by classes show of the lines, where they make the literals of the path and all lines of one literal true.
fn look_at_values(
    alloc: Global,
    sorts: &[Sort],
    lines: &[Line],
    singles: &[Choice],
    path: &[Choice],
    lits: &[Lit],
    classes: &Classes,
    plan: &Plan,
    exact: bool,
) -> Result<Option<Seen>, AllocError>
    requires fit { All (λ line. AreFit sorts.now line.lits) lines.now }
    requires lines { length lines.now ≤ most_lines }
    requires lits { lits.now ≡ place_lits lines.now path.now }
    ensures { IfOk result (λ seen. IfSome seen (Sees sorts.now lines.now path.now exact)) }
{
    match values_at(alloc, sorts, lits, classes)? {
        None => Ok(None),
        Some(values) => {
            if !are_true(lines, &values, singles)? {
                return Ok(None);
            }
            let verdict = first_false(lines, &values, &[], plan)?;
            Ok(seen_by(verdict, values, exact))
        }
    }
}

/// What a verdict on values shows.
fn seen_by(verdict: Verdict, values: Valuation, exact: bool) -> Option<Seen>
    ensures { IsSeenBy verdict values exact result }
{
    match verdict {
        Verdict::False(line) => Some(Seen::Split(line)),
        Verdict::Wide { .. } => None,
        Verdict::AllTrue => {
            if exact {
                None
            } else {
                Some(Seen::Model {
                    values,
                    chain: None,
                })
            }
        }
    }
}

/// The first of these lines that values by the classes of the path leave false.
fn look_along(
    alloc: Global,
    sorts: &[Sort],
    lines: &[Line],
    path: &[Choice],
    lits: &[Lit],
    classes: &Classes,
    wanted: &[u32],
) -> Result<Option<u32>, AllocError>
    requires fit { All (λ line. AreFit sorts.now line.lits) lines.now }
    requires lits { lits.now ≡ place_lits lines.now path.now }
    ensures { IfOk result (λ found. IfSome found (λ line. IsLine lines.now line × IsOpenAt sorts.now lines.now path.now line)) }
{
    match values_at(alloc, sorts, lits, classes)? {
        None => Ok(None),
        Some(values) => next_false(lines, &values, wanted),
    }
}

/// The next of the lines of the plan, or what values by classes show where the lines don't close the place.
fn look_for_lines(
    alloc: Global,
    sorts: &[Sort],
    lines: &[Line],
    singles: &[Choice],
    path: &[Choice],
    lits: &[Lit],
    classes: &Classes,
    plan: &mut Plan,
    exact: bool,
) -> Result<Option<Seen>, AllocError>
    requires fit { All (λ line. AreFit sorts.now line.lits) lines.now }
    requires lines { length lines.now ≤ most_lines }
    requires lits { lits.now ≡ place_lits lines.now path.now }
    ensures { IfOk result (λ seen. IfSome seen (Sees sorts.now lines.now path.now exact)) }
{
    if let Some(followed) = renew(alloc, sorts.len(), lines, path, plan)? {
        return look_at_values(
            alloc, sorts, lines, singles, path, lits, &followed, plan, exact,
        );
    }
    let wanted = lines_left(plan, path.len());
    match look_along(alloc, sorts, lines, path, lits, classes, wanted)? {
        Some(line) => Ok(Some(Seen::Split(line))),
        None => Ok(None),
    }
}

/// What equalities show at a place, where lines lead to any.
fn look_ahead(
    alloc: Global,
    sorts: &[Sort],
    lines: &[Line],
    singles: &[Choice],
    path: &[Choice],
    plan: &mut Plan,
    exact: bool,
) -> Result<Option<Seen>, AllocError>
    requires fit { All (λ line. AreFit sorts.now line.lits) lines.now }
    requires lines { length lines.now ≤ most_lines }
    ensures { IfOk result (λ seen. IfSome seen (Sees sorts.now lines.now path.now exact)) }
{
    if !plan.is_wanted {
        return Ok(None);
    }
    let owned = lits_of(alloc, lines, path)?;
    let lits = owned.as_slice();
    let classes = classes_of(alloc, sorts.len(), lits)?;
    match leaf_by(alloc, &classes, lits)? {
        Some(proof) => Ok(Some(Seen::Leaf(proof))),
        None => look_for_lines(
            alloc, sorts, lines, singles, path, lits, &classes, plan, exact,
        ),
    }
}

/// What shows at a place: by equalities where they show something, and else by the engines.
pub fn look(
    alloc: Global,
    sorts: &[Sort],
    lines: &[Line],
    singles: &[Choice],
    path: &[Choice],
    plan: &mut Plan,
    exact: bool,
) -> Result<Seen, SearchErr>
    requires fit { All (λ line. AreFit sorts.now line.lits) lines.now }
    requires lines { length lines.now ≤ most_lines }
    requires singles { AreSinglesOf lines.now singles.now }
    requires path { length path.now ≤ most_lines }
    ensures seen { IfOk result (Sees sorts.now lines.now path.now exact) }
    ensures strained { IfErr result (IsCauseWithin lines.now path.now) }
{
    match look_ahead(alloc, sorts, lines, singles, path, plan, exact)? {
        Some(seen) => Ok(seen),
        None => look_by_engines(alloc, sorts, lines, singles, path, plan, exact),
    }
}
