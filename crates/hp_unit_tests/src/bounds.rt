//! What difference bounds answer, with ample memory, to rows whose answers are known by hand.
ghost use Rattle.std.specs.Prelude.{◌≡◌, true};
ghost use Rattle.std.specs.List.{All};
ghost use Rattle.hp_lit.specs.Fit.{IsSmallBound};

use hp_diff::{DiffAnswer, decide};
use hp_lit::{IdxLit, Name, NameValue};
use hp_num::List;
use std::alloc::{AllocError, Global};

/// 10^25, the largest bound.
const LARGEST: i128 = 10_000_000_000_000_000_000_000_000;

const ZERO: Option<Name> = None;

const A: Option<Name> = Some(Name(3));

const B: Option<Name> = Some(Name(70000));

const C: Option<Name> = Some(Name(0));

const D: Option<Name> = Some(Name(12));

/// A name less another, and the bound.
type Difference = (Option<Name>, Option<Name>, i128);

fn at_most(difference: Difference) -> IdxLit {
    let (left, right, bound) = difference;
    IdxLit {
        exact: false,
        left,
        right,
        bound,
    }
}

/// What was answered: how many names a point has, or the steps of a cycle.
#[derive(Clone, Copy, Debug, PartialEq, Eq)]
enum Seen {
    Point(usize),
    Cycle(usize),
    Untrue,
    Unasked,
    NoMemory,
}

fn are_small(rows: &[IdxLit]) -> bool
    ensures { result ≡ true → All (λ row. IsSmallBound row.bound) rows.now }
{
    rows.iter()
        .all(|row| -LARGEST <= row.bound && row.bound <= LARGEST)
}

fn value_of(point: &List<NameValue>, name: Option<Name>) -> i128 {
    match point.as_slice().iter().find(|item| Some(item.name) == name) {
        Some(item) => item.value.num(),
        None => 0,
    }
}

fn holds(row: &IdxLit, point: &List<NameValue>) -> bool {
    let difference = value_of(point, row.left).wrapping_sub(value_of(point, row.right));
    difference <= row.bound && (!row.exact || difference == row.bound)
}

fn asked(alloc: Global, rows: &[IdxLit]) -> Seen {
    if rows.len() > 100_000 || !are_small(rows) {
        return Seen::Unasked;
    }
    match decide(alloc, rows) {
        Ok(DiffAnswer::Point(point)) => {
            if rows.iter().all(|row| holds(row, &point)) {
                Seen::Point(point.len())
            } else {
                Seen::Untrue
            }
        }
        Ok(DiffAnswer::Cycle(steps)) => Seen::Cycle(steps.len()),
        Err(_) => Seen::NoMemory,
    }
}

/// Differences that are at most their bounds, one that is its bound, and the answer.
const CASES: [(&[Difference], Difference, Seen); 9] = [
    (&[], (ZERO, ZERO, 0), Seen::Point(0)),
    (&[(A, B, -1), (B, A, 0)], (ZERO, ZERO, 0), Seen::Cycle(2)),
    (&[(A, A, -1)], (ZERO, ZERO, 0), Seen::Cycle(1)),
    (&[(A, B, 2)], (A, B, 3), Seen::Cycle(2)),
    (
        &[(A, ZERO, 4), (ZERO, A, -5)],
        (ZERO, ZERO, 0),
        Seen::Cycle(2),
    ),
    (
        &[(A, ZERO, 4), (ZERO, A, -4)],
        (ZERO, ZERO, 0),
        Seen::Point(1),
    ),
    (
        &[(A, B, -LARGEST), (B, C, -LARGEST), (C, D, -LARGEST)],
        (ZERO, ZERO, 0),
        Seen::Point(4),
    ),
    (
        &[(A, B, -LARGEST), (B, C, -LARGEST), (C, A, LARGEST)],
        (ZERO, ZERO, 0),
        Seen::Cycle(3),
    ),
    (
        &[(A, B, 2), (B, C, -3), (C, A, 1), (ZERO, A, -10)],
        (D, B, 4),
        Seen::Point(4),
    ),
];

#[test]
fn known_answers(rt: HostRuntime) -> Result<(), AllocError> {
    for (bounds, (left, right, bound), wanted) in CASES {
        let mut rows = Vec::new(rt.alloc());
        for difference in bounds {
            rows.push(at_most(*difference))?;
        }
        rows.push(IdxLit {
            exact: true,
            left,
            right,
            bound,
        })?;
        assert_eq!(rt; asked(rt.alloc(), &rows), wanted);
    }
    Ok(())
}
