//! What the descent and the simplex over literals answer, with ample memory, to literals whose answers are known by hand.

use hp_descent::{
    At, ChainAnswer, DescentErr, Form, NumAnswer, are_fit, compare, decide_chain, holds, value_at,
};
use hp_lit::{Name, NameValue, NumLit, Part, Rel, Share, Valuation};
use hp_num::{Frac, List, Op, Wide};
use hp_simplex::{Attempt, attempt};
use std::alloc::{AllocError, Global};
use std::cmp::Ordering;
use std::test::Fail;

/// 2^100 and 2^126, whose double passes 128 bits.
const LONG: i128 = 1_267_650_600_228_229_401_496_703_205_376;

const HALF: i128 = 85_070_591_730_234_615_865_843_651_857_942_052_864;

/// A relation, names with their coefficients, and a bound.
type Sides<'a> = (Rel, &'a [(u32, i128)], i128);

fn literals(alloc: Global, sides: &[Sides]) -> Result<List<NumLit>, AllocError> {
    let mut lits = List::new(alloc);
    for side in sides {
        let mut parts = List::new(alloc);
        for part in side.1 {
            parts.push(Part {
                name: Name(part.0),
                coef: part.1,
            })?;
        }
        lits.push(NumLit {
            rel: side.0,
            parts,
            bound: side.2,
        })?;
    }
    Ok(lits)
}

/// Each name with the numerator and denominator of its value.
fn push_values(numbers: &mut List<i128>, values: &[NameValue]) -> Result<(), AllocError> {
    for named in values {
        numbers.push(i128::from(named.name.0))?;
        numbers.push(named.value.num())?;
        numbers.push(named.value.den())?;
    }
    Ok(())
}

/// Each literal that is taken, with its multiplier.
fn push_shares(numbers: &mut List<i128>, shares: &[Share]) -> Result<(), AllocError> {
    for share in shares {
        numbers.push(i128::from(share.lit))?;
        numbers.push(share.times)?;
    }
    Ok(())
}

/// The answer of the descent, and want of memory where a literal isn't as it should be.
fn asked(alloc: Global, sides: &[Sides]) -> Result<ChainAnswer, DescentErr> {
    let lits = literals(alloc, sides)?;
    if are_fit(lits.as_slice()) {
        decide_chain(alloc, lits.as_slice())
    } else {
        Err(DescentErr::Memory)
    }
}

/// The answer of the simplex, and of the descent where that gives up, and want of memory where a literal isn't as it
/// should be.
fn asked_simplex(alloc: Global, sides: &[Sides]) -> Result<NumAnswer, DescentErr> {
    let lits = literals(alloc, sides)?;
    if are_fit(lits.as_slice()) {
        hp_simplex::decide(alloc, lits.as_slice())
    } else {
        Err(DescentErr::Memory)
    }
}

/// The rows of the chain and then the values, or the shares, of the descent's answer.
fn descended(alloc: Global, sides: &[Sides]) -> Result<List<i128>, AllocError> {
    let mut numbers = List::new(alloc);
    let answer = asked(alloc, sides);
    match &answer {
        Ok(ChainAnswer::Point { chain, values }) => {
            for row in chain.as_slice() {
                numbers.push(i128::from(*row))?;
            }
            push_values(&mut numbers, values.as_slice())?;
        }
        Ok(ChainAnswer::Farkas(shares)) => push_shares(&mut numbers, shares.as_slice())?,
        Err(_) => {}
    }
    Ok(numbers)
}

/// The values or shares of the simplex's answer, nothing where it gives up.
fn attempted(alloc: Global, sides: &[Sides]) -> Result<List<i128>, AllocError> {
    let mut numbers = List::new(alloc);
    let lits = literals(alloc, sides)?;
    match attempt(alloc, lits.as_slice())? {
        Attempt::Point(values) => push_values(&mut numbers, values.as_slice())?,
        Attempt::Farkas(shares) => push_shares(&mut numbers, shares.as_slice())?,
        Attempt::Unknown => {}
    }
    Ok(numbers)
}

/// The values or shares of the answer of the simplex or the descent.
fn pivoted(alloc: Global, sides: &[Sides]) -> Result<List<i128>, AllocError> {
    let mut numbers = List::new(alloc);
    let answer = asked_simplex(alloc, sides);
    match &answer {
        Ok(NumAnswer::Point(values)) => push_values(&mut numbers, values.as_slice())?,
        Ok(NumAnswer::Farkas(shares)) => push_shares(&mut numbers, shares.as_slice())?,
        Err(_) => {}
    }
    Ok(numbers)
}

/// Literals, and the numbers of an answer.
type Case = (&'static [Sides<'static>], &'static [i128]);

const DESCENDED: [Case; 4] = [
    // c <= 0 and -c < 0
    (
        &[(Rel::Le, &[(3, 1)], 0), (Rel::Lt, &[(3, -1)], 0)],
        &[1, 1, 2, 1],
    ),
    // c = 4 and 2c < 8
    (
        &[(Rel::Eq, &[(3, 1)], 4), (Rel::Lt, &[(3, 2)], 8)],
        &[1, -2, 2, 1],
    ),
    // c - d < 0: by rows 2 and 1, c is -1 and d is 0
    (
        &[(Rel::Lt, &[(0, 1), (1, -1)], 0)],
        &[2, 1, 0, -1, 1, 1, 0, 1],
    ),
    // 2^126 c + d <= -1 and (2^126 - 1) c + 2^126 d <= 0
    (
        &[
            (Rel::Le, &[(0, HALF), (1, 1)], -1),
            (Rel::Le, &[(0, HALF - 1), (1, HALF)], 0),
        ],
        &[2, 1, 0, -1, HALF, 1, 0, 1],
    ),
];

const PIVOTED: [Case; 6] = [
    // c <= 0 and -c < 0
    (
        &[(Rel::Le, &[(3, 1)], 0), (Rel::Lt, &[(3, -1)], 0)],
        &[1, 1, 2, 1],
    ),
    // c - d <= 0, d - e <= 0 and e - c < 0
    (
        &[
            (Rel::Le, &[(0, 1), (1, -1)], 0),
            (Rel::Le, &[(1, 1), (2, -1)], 0),
            (Rel::Lt, &[(0, -1), (2, 1)], 0),
        ],
        &[1, 1, 2, 1, 3, 1],
    ),
    // c = 3 and -c <= -4
    (
        &[(Rel::Eq, &[(0, 1)], 3), (Rel::Le, &[(0, -1)], -4)],
        &[1, 1, 2, 1],
    ),
    // -2c = -6 and -3c <= -12
    (
        &[(Rel::Eq, &[(0, -2)], -6), (Rel::Le, &[(0, -3)], -12)],
        &[1, -3, 2, 2],
    ),
    // c - d < 0 and d - e < 0
    (
        &[
            (Rel::Lt, &[(0, 1), (1, -1)], 0),
            (Rel::Lt, &[(1, 1), (2, -1)], 0),
        ],
        &[0, -1, 1, 1, 0, 1, 2, 1, 1],
    ),
    // 3d = -2 and 2c = 1
    (
        &[(Rel::Eq, &[(7, 3)], -2), (Rel::Eq, &[(4, 2)], 1)],
        &[4, 1, 2, 7, -2, 3],
    ),
];

/// 2^126 c + d <= -1 and (2^126 - 1) c + 2^126 d <= 0: without c, the second is a multiple of d that is too long for the
/// simplex, and c is no multiple of 1/64.
const GIVEN_UP: Case = (
    &[
        (Rel::Le, &[(0, HALF), (1, 1)], -1),
        (Rel::Le, &[(0, HALF - 1), (1, HALF)], 0),
    ],
    &[0, -1, HALF, 1, 0, 1],
);

#[test]
fn points_and_shares(rt: HostRuntime) -> Result<(), Fail> {
    for (sides, wanted) in DESCENDED {
        let numbers = descended(rt.alloc(), sides)?;
        assert_eq!(rt; numbers.as_slice(), wanted);
    }
    for (sides, wanted) in PIVOTED {
        let numbers = pivoted(rt.alloc(), sides)?;
        assert_eq!(rt; numbers.as_slice(), wanted);
        let numbers = attempted(rt.alloc(), sides)?;
        assert_eq!(rt; numbers.as_slice(), wanted);
    }
    let (sides, wanted) = GIVEN_UP;
    assert_eq!(rt; pivoted(rt.alloc(), sides)?.as_slice(), wanted);
    assert_eq!(rt; attempted(rt.alloc(), sides)?.len(), 0);
    Ok(())
}

/// True at 9, 8 and -5, while the point where all three are equations has numbers of more than 38 digits.
const LARGE: [Sides; 3] = [
    (
        Rel::Le,
        &[
            (0, -66716320825598),
            (1, 1853731934782),
            (2, -77516683675205),
        ],
        -131849382384671,
    ),
    (
        Rel::Lt,
        &[
            (0, 67042505171160),
            (1, -32638103374918),
            (2, -54879044187185),
        ],
        639105829676974,
    ),
    (
        Rel::Le,
        &[(0, 6024082902379), (1, 4367037175770), (2, 83702353106327)],
        -269272468411650,
    ),
];

#[test]
fn large_coefficients_leave_short_values(rt: HostRuntime) -> Result<(), Fail> {
    let numbers = pivoted(rt.alloc(), &LARGE)?;
    assert_eq!(rt; numbers.len(), 9);
    Ok(())
}

fn is_cause(cause: &DescentErr, at: At, wide: Wide) -> bool {
    match cause {
        DescentErr::Strain(strain) => {
            strain.at == at && strain.form == Form::Sum && strain.wide == wide
        }
        DescentErr::Memory => false,
    }
}

/// How the left side of a further literal stands to its bound at the values of the chain that the decision gives, and
/// want of memory where a literal isn't as it should be.
fn asked_at(alloc: Global, sides: &[Sides], other: Sides) -> Result<Ordering, DescentErr> {
    let lits = literals(alloc, sides)?;
    let others = literals(alloc, &[other])?;
    if !are_fit(lits.as_slice()) || !are_fit(others.as_slice()) {
        return Err(DescentErr::Memory);
    }
    match others.as_slice().get(0) {
        None => Err(DescentErr::Memory),
        Some(other) => match decide_chain(alloc, lits.as_slice())? {
            ChainAnswer::Point { chain, values: _ } => {
                value_at(alloc, lits.as_slice(), chain.as_slice(), other)
            }
            ChainAnswer::Farkas(_) => Err(DescentErr::Memory),
        },
    }
}

/// Literals that are compared where c - d < 0, with the values c = -1 and d = 0; a name that stands in no row has 0.
const COMPARED: [(Sides, Ordering); 4] = [
    ((Rel::Le, &[(0, 1)], 0), Ordering::Less),
    ((Rel::Eq, &[(0, 2)], -2), Ordering::Equal),
    ((Rel::Le, &[(0, -3), (1, 1)], 2), Ordering::Greater),
    ((Rel::Eq, &[(0, 1), (4, 1)], -1), Ordering::Equal),
];

#[test]
fn literals_are_compared_at_the_values_of_a_chain(rt: HostRuntime) {
    for (other, wanted) in COMPARED {
        let answer = asked_at(rt.alloc(), &[(Rel::Lt, &[(0, 1), (1, -1)], 0)], other);
        assert!(rt; matches!(answer, Ok(order) if order == wanted));
    }
}

#[test]
fn sums_that_are_too_wide(rt: HostRuntime) {
    // c = 2^100 and 2^100 c <= 0
    let answer = asked_at(
        rt.alloc(),
        &[(Rel::Eq, &[(0, 1)], LONG)],
        (Rel::Le, &[(0, LONG)], 0),
    );
    let wide = Wide {
        left: LONG,
        op: Op::Times,
        right: LONG,
    };
    let at = At::Literal { line: 0, lit: 0 };
    assert!(rt; matches!(&answer, Err(cause) if is_cause(cause, at, wide)));
    // 2^100 c = 1, (2^100 + 1) d = 1 and c + d <= 5, of five rows and that of t
    let answer = asked(
        rt.alloc(),
        &[
            (Rel::Eq, &[(0, LONG)], 1),
            (Rel::Eq, &[(1, LONG + 1)], 1),
            (Rel::Le, &[(0, 1), (1, 1)], 5),
        ],
    );
    let wide = Wide {
        left: LONG,
        op: Op::Times,
        right: LONG + 1,
    };
    assert!(rt; matches!(&answer, Err(cause) if is_cause(cause, At::Row(6), wide)));
}

/// Where names 0 and 1 have 1/2 and -3 and the others 0: how literals stand to their bounds, and whether they hold.
const VALUED: [(Sides, Ordering, bool); 3] = [
    (
        (Rel::Eq, &[(0, 4), (1, 1), (7, 5)], -1),
        Ordering::Equal,
        true,
    ),
    ((Rel::Lt, &[(0, 4), (1, 1)], -1), Ordering::Equal, false),
    ((Rel::Le, &[(0, -4), (1, -1)], 0), Ordering::Greater, false),
];

/// How a literal stands to its bound, and whether it holds; nothing where it isn't as it should be.
fn valued(alloc: Global, v: &Valuation, side: Sides) -> Option<(Ordering, bool)> {
    let lits = literals(alloc, &[side]).ok()?;
    if lits.len() != 1 || !are_fit(lits.as_slice()) {
        return None;
    }
    let lit = lits.get(0);
    Some((compare(v, lit).ok()?, holds(v, lit).ok()?))
}

#[test]
fn literals_are_compared_at_a_valuation(rt: HostRuntime) -> Result<(), Fail> {
    let mut values = List::new(rt.alloc());
    values.push(Frac::new(1, 2))?;
    values.push(Frac::new(-3, 1))?;
    let v = Valuation { values };
    for (side, order, is_true) in VALUED {
        assert_eq!(rt; valued(rt.alloc(), &v, side), Some((order, is_true)));
    }
    Ok(())
}
