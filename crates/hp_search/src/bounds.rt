//! Bounds on differences: those that the literals of a path, the lines of one literal and the classes of names give, each
//! taken as far as sums of others go (Floyd 1962).
//!
//! Only the order in which lines are split hangs on them, so nothing is proved of them.
use crate::classes::{Classes, Standing, distance_of, label_of};
use crate::gaps::{Gap, Order, gap_of};
use hp_lit::{Choice, Line, Lit};
use hp_num::List;
use std::alloc::{AllocError, Global};

/// The most classes between which bounds are kept.
const MOST_CLASSES: usize = 64;

/// That a difference is at most a number, or below it.
#[derive(Clone, Copy)]
struct Bound {
    most: i128,
    strict: bool,
}

/// Bounds on the differences of classes, each as the node of its label.
#[derive(Drop)]
pub struct Bounds {
    /// For each node the place of its label among those with bounds, counted from 1, and 0 where it has none.
    places: List<usize>,
    /// How many labels have bounds.
    count: usize,
    /// The bound on each label less each other one, row by row.
    table: List<Option<Bound>>,
}

/// The same difference between the labels of classes.
fn between_labels(classes: &Classes, gap: Gap) -> Gap {
    let shift = distance_of(classes, gap.right).saturating_sub(distance_of(classes, gap.left));
    Gap {
        left: label_of(classes, gap.left),
        right: label_of(classes, gap.right),
        order: gap.order,
        bound: gap.bound.saturating_add(shift),
    }
}

/// Adds a literal as a difference between labels, where it is one of two classes.
fn push_gap(classes: &Classes, lit: &Lit, gaps: &mut List<Gap>) -> Result<(), AllocError> {
    match gap_of(lit) {
        None => Ok(()),
        Some(gap) => {
            let found = between_labels(classes, gap);
            if found.left == found.right {
                Ok(())
            } else {
                gaps.push(found)
            }
        }
    }
}

/// The differences that the lines of one literal and the choices of a path are.
fn gaps_of(
    alloc: Global,
    classes: &Classes,
    lines: &[Line],
    path: &[Choice],
) -> Result<List<Gap>, AllocError> {
    let mut gaps = List::new(alloc);
    for line in lines {
        if line.lits.len() == 1 {
            push_gap(classes, &line.lits.as_slice()[0], &mut gaps)?;
        }
    }
    for choice in path {
        push_choice(classes, lines, *choice, &mut gaps)?;
    }
    Ok(gaps)
}

/// Adds the literal of a choice.
fn push_choice(
    classes: &Classes,
    lines: &[Line],
    choice: Choice,
    gaps: &mut List<Gap>,
) -> Result<(), AllocError> {
    let Some(line) = lines.get((choice.line as usize).saturating_sub(1)) else {
        return Ok(());
    };
    match line
        .lits
        .as_slice()
        .get((choice.lit as usize).saturating_sub(1))
    {
        Some(lit) => push_gap(classes, lit, gaps),
        None => Ok(()),
    }
}

/// So many zeros.
fn zeros(alloc: Global, count: usize) -> Result<List<usize>, AllocError> {
    let mut list = List::new(alloc);
    for _ in 0..count {
        list.push(0)?;
    }
    Ok(list)
}

/// Gives a label a place, unless it has one. The count of places after it.
fn place(places: &mut List<usize>, label: usize, count: usize) -> usize {
    if label < places.len() && *places.get(label) == 0 {
        let next = count.saturating_add(1);
        places.set(label, next);
        return next;
    }
    count
}

/// Bounds that say nothing.
fn nothing(alloc: Global) -> Bounds {
    Bounds {
        places: List::new(alloc),
        count: 0,
        table: List::new(alloc),
    }
}

/// The bounds at a place of the search with these classes; none where there are too many classes.
pub fn bounds_at(
    alloc: Global,
    names: usize,
    classes: &Classes,
    lines: &[Line],
    path: &[Choice],
) -> Result<Bounds, AllocError> {
    let gaps = gaps_of(alloc, classes, lines, path)?;
    let mut places = zeros(alloc, names.saturating_add(1))?;
    let mut count = 0;
    for gap in gaps.as_slice() {
        count = place(&mut places, gap.left, count);
        count = place(&mut places, gap.right, count);
    }
    if count > MOST_CLASSES {
        return Ok(nothing(alloc));
    }
    let mut bounds = Bounds {
        places,
        count,
        table: open_table(alloc, count)?,
    };
    for gap in gaps.as_slice() {
        take(&mut bounds, *gap);
    }
    close(&mut bounds);
    Ok(bounds)
}

/// No bound between so many labels.
fn open_table(alloc: Global, count: usize) -> Result<List<Option<Bound>>, AllocError> {
    let mut table = List::new(alloc);
    for _ in 0..count.saturating_mul(count) {
        table.push(None)?;
    }
    Ok(table)
}

/// Takes a difference into the table.
fn take(bounds: &mut Bounds, gap: Gap) {
    let (Some(left), Some(right)) = (place_of(bounds, gap.left), place_of(bounds, gap.right)) else {
        return;
    };
    let most = gap.bound;
    match gap.order {
        Order::Less => tighten(bounds, left, right, Bound { most, strict: true }),
        Order::AtMost => tighten(
            bounds,
            left,
            right,
            Bound {
                most,
                strict: false,
            },
        ),
        Order::Same => {
            tighten(
                bounds,
                left,
                right,
                Bound {
                    most,
                    strict: false,
                },
            );
            tighten(
                bounds,
                right,
                left,
                Bound {
                    most: 0i128.saturating_sub(most),
                    strict: false,
                },
            );
        }
        Order::Apart => {}
    }
}

/// The place of a label in the table, from 0.
fn place_of(bounds: &Bounds, label: usize) -> Option<usize> {
    match bounds.places.as_slice().get(label) {
        Some(0) | None => None,
        Some(place) => Some(place.saturating_sub(1)),
    }
}

/// The index of two places in the table.
fn index_of(bounds: &Bounds, left: usize, right: usize) -> usize {
    left.saturating_mul(bounds.count).saturating_add(right)
}

/// The bound on the difference of two places.
fn bound_of(bounds: &Bounds, left: usize, right: usize) -> Option<Bound> {
    match bounds.table.as_slice().get(index_of(bounds, left, right)) {
        Some(bound) => *bound,
        None => None,
    }
}

/// Whether a bound says more than another.
fn is_tighter(bound: Bound, other: Option<Bound>) -> bool {
    match other {
        None => true,
        Some(other) => {
            bound.most < other.most || (bound.most == other.most && bound.strict && !other.strict)
        }
    }
}

/// Puts a bound into the table, where it says more than the one there.
fn tighten(bounds: &mut Bounds, left: usize, right: usize, bound: Bound) {
    let at = index_of(bounds, left, right);
    if at < bounds.table.len() && is_tighter(bound, bound_of(bounds, left, right)) {
        bounds.table.set(at, Some(bound));
    }
}

/// Adds all sums of bounds.
fn close(bounds: &mut Bounds) {
    for middle in 0..bounds.count {
        close_over(bounds, middle);
    }
}

/// Adds the sums of two bounds that meet at a place.
fn close_over(bounds: &mut Bounds, middle: usize) {
    for left in 0..bounds.count {
        match bound_of(bounds, left, middle) {
            Some(first) => close_from(bounds, left, middle, first),
            None => {}
        }
    }
}

/// The same of those that begin with this bound.
fn close_from(bounds: &mut Bounds, left: usize, middle: usize, first: Bound) {
    for right in 0..bounds.count {
        match bound_of(bounds, middle, right) {
            None => {}
            Some(second) => tighten(
                bounds,
                left,
                right,
                Bound {
                    most: first.most.saturating_add(second.most),
                    strict: first.strict || second.strict,
                },
            ),
        }
    }
}

/// Whether a difference with this bound is at most, or below, a number.
fn is_within(bound: Option<Bound>, most: i128, strict: bool) -> bool {
    match bound {
        None => false,
        Some(bound) => bound.most < most || (bound.most == most && (bound.strict || !strict)),
    }
}

/// What bounds make of a difference between labels.
fn stands(bounds: &Bounds, gap: Gap) -> Standing {
    let (Some(left), Some(right)) = (place_of(bounds, gap.left), place_of(bounds, gap.right)) else {
        return Standing::Open;
    };
    let forth = bound_of(bounds, left, right);
    let back = bound_of(bounds, right, left);
    let turned = 0i128.saturating_sub(gap.bound);
    match gap.order {
        Order::AtMost => standing(
            is_within(forth, gap.bound, false),
            is_within(back, turned, true),
        ),
        Order::Less => standing(
            is_within(forth, gap.bound, true),
            is_within(back, turned, false),
        ),
        Order::Same => standing(
            false,
            is_within(forth, gap.bound, true) || is_within(back, turned, true),
        ),
        Order::Apart => Standing::Open,
    }
}

/// True, false, or open where it is neither.
fn standing(is_true: bool, is_false: bool) -> Standing {
    if is_true {
        Standing::True
    } else if is_false {
        Standing::False
    } else {
        Standing::Open
    }
}

/// What bounds make of a literal, where it is a difference.
pub fn judge_by_bounds(bounds: &Bounds, classes: &Classes, lit: &Lit) -> Standing {
    match gap_of(lit) {
        Some(gap) => stands(bounds, between_labels(classes, gap)),
        None => Standing::Open,
    }
}
