//! What is known at a place of the order in which lines are to be split.
use crate::bounds::{Bounds, bounds_at};
use crate::classes::Classes;
use crate::following::{Followed, cases_left, follow};
use crate::gaps::link_of;
use hp_lit::{Choice, Line};
use hp_num::List;
use std::alloc::{AllocError, Global};

/// A choice that names no literal.
const NOWHERE: Choice = Choice { line: 0, lit: 0 };

/// The order in which lines are split first.
#[derive(Drop)]
pub struct Plan {
    /// Whether a line of two literals or more has an equality, so that lines lead to more than those of one literal do.
    pub is_wanted: bool,
    /// Lines that close the place, each with one case left after those before it.
    pub lines: List<u32>,
    /// Where no lines close the place, how many cases each line has left.
    pub counts: List<usize>,
    /// How many choices the place has that the lines were found for.
    depth: usize,
    /// The last one of them.
    last: Choice,
}

/// Whether a line has two literals or more, and one of them is an equality.
fn leads_on(line: &Line) -> bool {
    if line.lits.len() < 2 {
        return false;
    }
    for lit in line.lits.as_slice() {
        match link_of(lit) {
            Some(_) => return true,
            None => {}
        }
    }
    false
}

/// Whether one of the lines leads to equalities.
fn lead_on(lines: &[Line]) -> bool {
    for line in lines {
        if leads_on(line) {
            return true;
        }
    }
    false
}

/// The plan of the whole search, with the lines that close it where there are such.
pub fn first_plan(alloc: Global, names: usize, lines: &[Line]) -> Result<Plan, AllocError> {
    let mut plan = Plan {
        is_wanted: lead_on(lines),
        lines: List::new(alloc),
        counts: List::new(alloc),
        depth: 0,
        last: NOWHERE,
    };
    if plan.is_wanted {
        let _classes = renew(alloc, names, lines, &[], &mut plan)?;
    }
    Ok(plan)
}

/// The last of the first `depth` choices of a path.
fn last_of(path: &[Choice], depth: usize) -> Choice {
    match path.get(depth.saturating_sub(1)) {
        Some(choice) => *choice,
        None => NOWHERE,
    }
}

/// The lines that are left to be split at a place with so many choices: below the place that they were found for, each has
/// given one choice.
pub fn lines_left(plan: &Plan, depth: usize) -> &[u32] {
    let lines = plan.lines.as_slice();
    let done = depth.saturating_sub(plan.depth);
    if done <= lines.len() {
        lines.split_at(done).1
    } else {
        lines
    }
}

/// Whether the lines are those of a place on the path.
fn is_on(plan: &Plan, path: &[Choice]) -> bool {
    if plan.lines.len() == 0 || path.len() < plan.depth {
        return false;
    }
    let last = last_of(path, plan.depth);
    last.line == plan.last.line && last.lit == plan.last.lit
}

/// How many cases classes and bounds leave of each line.
fn counts_by(
    alloc: Global,
    classes: &Classes,
    bounds: &Bounds,
    lines: &[Line],
) -> Result<List<usize>, AllocError> {
    let mut counts = List::new(alloc);
    for line in lines {
        counts.push(cases_left(classes, bounds, line.lits.as_slice()))?;
    }
    Ok(counts)
}

/// Finds lines for a place anew, where those at hand are not of a place above it. The classes of names that the lines
/// lead to are given where no lines close the place.
pub fn renew(
    alloc: Global,
    names: usize,
    lines: &[Line],
    path: &[Choice],
    plan: &mut Plan,
) -> Result<Option<Classes>, AllocError> {
    if is_on(plan, path) {
        return Ok(None);
    }
    plan.depth = path.len();
    plan.last = last_of(path, path.len());
    match follow(alloc, names, lines, path)? {
        Followed::Lines(found) => {
            plan.lines = found;
            plan.counts = List::new(alloc);
            Ok(None)
        }
        Followed::Classes(classes) => {
            plan.lines = List::new(alloc);
            let bounds = bounds_at(alloc, names, &classes, lines, path)?;
            plan.counts = counts_by(alloc, &classes, &bounds, lines)?;
            Ok(Some(classes))
        }
    }
}
