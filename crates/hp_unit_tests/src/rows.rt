//! What the descent over rows answers, with ample memory, to rows whose answers are known by hand.

use hp_num::{Frac, List, Whole};
use hp_rows::{Answer, Located, Place, Row, Strain, are_wide, descend, locate, values};
use std::alloc::{AllocError, Global};
use std::test::Fail;

/// 2^100, whose square passes 128 bits.
const LONG: i128 = 1_267_650_600_228_229_401_496_703_205_376;

/// Coefficients, and a bound.
type Sides = (&'static [i128], i128);

fn whole(value: i128) -> Whole {
    if value == i128::MIN {
        Whole::new(0)
    } else {
        Whole::new(value)
    }
}

fn rows_of(alloc: Global, sides: &[Sides]) -> Result<List<Row>, AllocError> {
    let mut rows = List::new(alloc);
    for side in sides {
        let mut coefs = List::new(alloc);
        for value in side.0 {
            coefs.push(whole(*value))?;
        }
        let bound = whole(side.1);
        rows.push(Row { coefs, bound })?;
    }
    Ok(rows)
}

/// The answer, and want of memory where a row isn't as wide as it should be.
fn asked(alloc: Global, width: usize, sides: &[Sides]) -> Result<Answer, AllocError> {
    let rows = rows_of(alloc, sides)?;
    if are_wide(width, rows.as_slice()) {
        Ok(descend(alloc, width, rows.as_slice()))
    } else {
        Ok(Answer::Memory)
    }
}

fn push_point(numbers: &mut List<i128>, chain: &[usize], point: &[Frac]) -> Result<(), AllocError> {
    for row in chain {
        numbers.push(*row as i128)?;
    }
    for value in point {
        numbers.push(value.num())?;
        numbers.push(value.den())?;
    }
    Ok(())
}

/// The chain, the row of a line or sum, and the two numbers.
fn push_strain(numbers: &mut List<i128>, strain: &Strain) -> Result<(), AllocError> {
    for row in strain.chain.as_slice() {
        numbers.push(*row as i128)?;
    }
    match strain.place {
        Place::Line(row) | Place::Sum(row) => numbers.push(row as i128)?,
        Place::Point | Place::Value => {}
    }
    numbers.push(strain.wide.left)?;
    numbers.push(strain.wide.right)
}

/// The chain and the coordinates of a point, multipliers, or a strain.
fn numbers_of(alloc: Global, answer: &Answer) -> Result<List<i128>, AllocError> {
    let mut numbers = List::new(alloc);
    match answer {
        Answer::Point { chain, point } => {
            push_point(&mut numbers, chain.as_slice(), point.as_slice())?;
        }
        Answer::Contradiction(times) => {
            for value in times.as_slice() {
                numbers.push(value.value())?;
            }
        }
        Answer::Strain(strain) => push_strain(&mut numbers, strain)?,
        Answer::Memory => {}
    }
    Ok(numbers)
}

/// The width of the rows, the rows, and the numbers of the answer.
type Case = (usize, &'static [Sides], &'static [i128]);

const CASES: [Case; 5] = [
    // -t <= -1, c <= 0 and -c < 0: once the second and once the third
    (
        2,
        &[(&[0, -1], -1), (&[1, 0], 0), (&[-1, 0], -1)],
        &[0, 1, 1],
    ),
    // 6c <= -5 and -4c <= 3: 2 times the first and 3 times the second
    (1, &[(&[6], -5), (&[-4], 3)], &[2, 3]),
    // -t <= -1 and c - d < 0: c is -1, d is 0 and t is 1, by the chain of rows 1 and 0
    (
        3,
        &[(&[0, 0, -1], -1), (&[1, -1, 0], -1)],
        &[1, 0, -1, 1, 0, 1, 1, 1],
    ),
    // 2^100 x + y <= -2 and (1 - 2^100) x + 2^100 y <= -1: the second is eliminated from the first
    (
        2,
        &[(&[LONG, 1], -2), (&[1 - LONG, LONG], -1)],
        &[1, 0, LONG - 1, LONG],
    ),
    // -2^100 x <= -1, -(2^100 + 1) y <= -1 and x + y <= 5: at x = 1/2^100 and y = 1/(2^100 + 1)
    (
        2,
        &[(&[-LONG, 0], -1), (&[0, -1 - LONG], -1), (&[1, 1], 5)],
        &[1, 0, 2, LONG, LONG + 1],
    ),
];

#[test]
fn answers(rt: HostRuntime) -> Result<(), Fail> {
    for (width, sides, wanted) in CASES {
        let answer = asked(rt.alloc(), width, sides)?;
        let numbers = numbers_of(rt.alloc(), &answer)?;
        assert_eq!(rt; numbers.as_slice(), wanted);
    }
    Ok(())
}

/// Whether the rows have a point, and its chain has that point.
fn is_found_again(alloc: Global, width: usize, rows: &[Row]) -> bool {
    if !are_wide(width, rows) {
        return false;
    }
    match descend(alloc, width, rows) {
        Answer::Point { chain, point } => match locate(alloc, width, rows, chain.as_slice()) {
            Located::Point(again) => again.as_slice() == point.as_slice(),
            _ => false,
        },
        _ => false,
    }
}

/// The values that a point gives, none where it has no scale.
fn scaled(alloc: Global, point: &[Frac]) -> List<Frac> {
    if point.len() == 0 || point[point.len() - 1].is_zero() {
        return List::new(alloc);
    }
    match values(alloc, point) {
        Ok(values) => values,
        Err(_) => List::new(alloc),
    }
}

#[test]
fn points_of_chains(rt: HostRuntime) -> Result<(), Fail> {
    let rows = rows_of(
        rt.alloc(),
        &[(&[0, 0, -1], -1), (&[2, -3, 0], -1), (&[-1, 1, 1], 0)],
    )?;
    assert!(rt; is_found_again(rt.alloc(), 3, rows.as_slice()));
    let point = [Frac::new(1, 2), Frac::new(-3, 1), Frac::new(2, 1)];
    let values = scaled(rt.alloc(), &point);
    let wanted = [Frac::new(1, 4), Frac::new(-3, 2)];
    assert_eq!(rt; values.as_slice(), wanted.as_slice());
    Ok(())
}
