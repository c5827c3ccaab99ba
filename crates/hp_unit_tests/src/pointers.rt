//! What equalities and inequalities of pointers are answered, with ample memory, where the answers are known by hand.

use hp_lit::{Name, NameValue, PtrLit};
use hp_num::List;
use hp_ptreq::{PtrAnswer, decide};
use std::alloc::{AllocError, Global};
use std::test::Fail;

const NULL: Option<Name> = None;

const U: Option<Name> = Some(Name(3));

const V: Option<Name> = Some(Name(70000));

const W: Option<Name> = Some(Name(0));

/// Two pointers that are the same or apart.
#[derive(Clone, Copy)]
enum Pair {
    Same(Option<Name>, Option<Name>),
    Apart(Option<Name>, Option<Name>),
}

fn row(pair: Pair) -> PtrLit {
    match pair {
        Pair::Same(left, right) => PtrLit {
            same: true,
            left,
            right,
        },
        Pair::Apart(left, right) => PtrLit {
            same: false,
            left,
            right,
        },
    }
}

fn rows(alloc: Global, pairs: &[Pair]) -> Result<Vec<PtrLit>, AllocError> {
    let mut rows = Vec::new(alloc);
    for pair in pairs {
        rows.push(row(*pair))?;
    }
    Ok(rows)
}

fn value_of(values: &[NameValue], name: Option<Name>) -> i128 {
    match values.iter().find(|item| Some(item.name) == name) {
        Some(item) => item.value.num(),
        None => 0,
    }
}

fn holds(row: &PtrLit, values: &[NameValue]) -> bool {
    (value_of(values, row.left) == value_of(values, row.right)) == row.same
}

/// The number of the inequality and then of the equalities of a conflict, or a 0 and how many names have values. Nothing
/// where the values don't make the rows true.
fn asked(alloc: Global, rows: &[PtrLit]) -> Result<List<usize>, AllocError> {
    let mut numbers = List::new(alloc);
    if rows.len() > 100_000 {
        return Ok(numbers);
    }
    match decide(alloc, rows)? {
        PtrAnswer::Classes(values) => {
            if rows.iter().all(|row| holds(row, values.as_slice())) {
                numbers.push(0)?;
                numbers.push(values.len())?;
            }
        }
        PtrAnswer::Conflict { ne, path } => {
            numbers.push(ne as usize)?;
            for row in path.as_slice() {
                numbers.push(*row as usize)?;
            }
        }
    }
    Ok(numbers)
}

/// Pairs, and the numbers of the answer.
const CASES: [(&[Pair], &[usize]); 11] = [
    (&[], &[0, 0]),
    (&[Pair::Same(NULL, NULL)], &[0, 0]),
    (&[Pair::Apart(U, NULL)], &[0, 1]),
    (
        &[
            Pair::Same(V, NULL),
            Pair::Apart(U, V),
            Pair::Apart(W, NULL),
            Pair::Same(U, W),
        ],
        &[0, 3],
    ),
    (
        &[
            Pair::Apart(U, V),
            Pair::Apart(V, W),
            Pair::Apart(W, U),
            Pair::Same(W, W),
        ],
        &[0, 3],
    ),
    (&[Pair::Same(U, V), Pair::Apart(U, V)], &[2, 1]),
    (&[Pair::Apart(V, U), Pair::Same(U, V)], &[1, 2]),
    (&[Pair::Apart(U, U)], &[1]),
    (&[Pair::Apart(NULL, NULL)], &[1]),
    (
        &[Pair::Same(U, NULL), Pair::Same(V, NULL), Pair::Apart(U, V)],
        &[3, 1, 2],
    ),
    (
        &[
            Pair::Same(W, V),
            Pair::Same(W, V),
            Pair::Apart(U, NULL),
            Pair::Same(NULL, W),
            Pair::Apart(V, NULL),
        ],
        &[5, 1, 4],
    ),
];

/// Equalities of each name with the next one, in an order that starts anew at each eleventh, and the ends unequal.
fn chain(alloc: Global, names: u32) -> Result<Vec<PtrLit>, AllocError> {
    let mut rows = Vec::new(alloc);
    for start in 0..11u32 {
        for name in 0..names {
            if name % 11 == start {
                rows.push(row(Pair::Same(Some(Name(name)), Some(Name(name.wrapping_add(1))))))?;
            }
        }
    }
    rows.push(row(Pair::Apart(Some(Name(names)), Some(Name(0)))))?;
    Ok(rows)
}

#[test]
fn classes_and_conflicts(rt: HostRuntime) -> Result<(), Fail> {
    for (at, (pairs, wanted)) in CASES.into_iter().enumerate() {
        let numbers = asked(rt.alloc(), &rows(rt.alloc(), pairs)?)?;
        assert_eq!(rt; numbers.as_slice(), wanted, "case {at}");
    }
    // the way begins at the equality of names 199 and 200, the last of the second round: row 38
    let mut links = chain(rt.alloc(), 200)?;
    let numbers = asked(rt.alloc(), &links)?;
    assert_eq!(rt; numbers.len(), 201);
    assert_eq!(rt; numbers.as_slice().first().copied(), Some(201));
    assert_eq!(rt; numbers.as_slice().get(1).copied(), Some(38));
    links.pop();
    let numbers = asked(rt.alloc(), &links)?;
    assert_eq!(rt; numbers.as_slice(), [0, 201].as_slice());
    Ok(())
}
