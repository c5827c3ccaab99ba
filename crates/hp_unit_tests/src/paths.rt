//! What the decisions over one path answer with ample memory, where the answers are known by hand.

use crate::sides::{I, SORTS, Side, U, V, W, literals};
use hp_descent::DescentErr;
use hp_leaf::LeafProof;
use hp_lit::{Rel, Valuation};
use hp_num::List;
use hp_path::{
    Decision, Quick, are_fit, component_of_last, decide, decide_patiently, decide_quickly,
};
use std::alloc::{AllocError, Global};
use std::test::Fail;

/// 2^100, whose square passes 128 bits.
const LONG: i128 = 1_267_650_600_228_229_401_496_703_205_376;

/// What is asked of literals.
#[derive(Clone, Copy)]
enum Call {
    Exactly,
    Quickly,
    Patiently,
    ComponentOfLast,
}

/// What kind of answer comes.
#[derive(Clone, Copy, Debug, PartialEq, Eq)]
enum Kind {
    Values,
    Leaf,
    Unknown,
    Component,
    Strain,
    Unasked,
    NoMemory,
}

/// The numerator and denominator of each value.
pub fn push_values(numbers: &mut List<i128>, values: &Valuation) -> Result<(), AllocError> {
    for value in values.values.as_slice() {
        numbers.push(value.num())?;
        numbers.push(value.den())?;
    }
    Ok(())
}

/// The number of each literal that is taken, with its multiplier; in a cycle, or a conflict of pointers, whose inequality
/// stands first, with 0.
fn push_leaf(numbers: &mut List<i128>, proof: &LeafProof) -> Result<(), AllocError> {
    match proof {
        LeafProof::Num(shares) => {
            for share in shares.as_slice() {
                numbers.push(i128::from(share.lit))?;
                numbers.push(share.times)?;
            }
        }
        LeafProof::Idx(steps) => {
            for step in steps.as_slice() {
                numbers.push(i128::from(step.lit))?;
                numbers.push(0)?;
            }
        }
        LeafProof::Ptr { ne, path } => {
            numbers.push(i128::from(*ne))?;
            numbers.push(0)?;
            for link in path.as_slice() {
                numbers.push(i128::from(*link))?;
                numbers.push(0)?;
            }
        }
    }
    Ok(())
}

fn push_places(numbers: &mut List<i128>, places: &[u32]) -> Result<(), AllocError> {
    for place in places {
        numbers.push(i128::from(*place))?;
    }
    Ok(())
}

fn push_decision(
    numbers: &mut List<i128>,
    decision: &Result<Decision, DescentErr>,
) -> Result<Kind, AllocError> {
    match decision {
        Ok(Decision::Values { values, chain: _ }) => {
            push_values(numbers, values)?;
            Ok(Kind::Values)
        }
        Ok(Decision::Leaf(proof)) => {
            push_leaf(numbers, proof)?;
            Ok(Kind::Leaf)
        }
        Err(DescentErr::Strain(_)) => Ok(Kind::Strain),
        Err(DescentErr::Memory) => Ok(Kind::NoMemory),
    }
}

/// The components without an answer one after the other, with a 0 behind each.
fn push_quick(numbers: &mut List<i128>, found: &Quick) -> Result<Kind, AllocError> {
    match found {
        Quick::Values(values) => {
            push_values(numbers, values)?;
            Ok(Kind::Values)
        }
        Quick::Leaf(proof) => {
            push_leaf(numbers, proof)?;
            Ok(Kind::Leaf)
        }
        Quick::Unknown(components) => {
            for component in components.as_slice() {
                push_places(numbers, component.as_slice())?;
                numbers.push(0)?;
            }
            Ok(Kind::Unknown)
        }
    }
}

/// The kind of the answer; its numbers are put at the end of those given.
fn asked(
    alloc: Global,
    call: Call,
    sides: &[Side],
    numbers: &mut List<i128>,
) -> Result<Kind, AllocError> {
    let lits = literals(alloc, sides)?;
    if lits.len() > 100_000 || !are_fit(&SORTS, lits.as_slice()) {
        return Ok(Kind::Unasked);
    }
    match call {
        Call::Exactly => push_decision(numbers, &decide(alloc, &SORTS, lits.as_slice())),
        Call::Quickly => push_quick(numbers, &decide_quickly(alloc, &SORTS, lits.as_slice())?),
        Call::Patiently => push_quick(numbers, &decide_patiently(alloc, &SORTS, lits.as_slice())?),
        Call::ComponentOfLast => {
            let places = component_of_last(alloc, &SORTS, lits.as_slice())?;
            push_places(numbers, places.as_slice())?;
            Ok(Kind::Component)
        }
    }
}

/// i = 5, c = 3, 2d = 1, u = w and v != u.
const POINT: [Side; 5] = [
    Side::Num(Rel::Eq, 0, 2, 1),
    Side::Same(U, W),
    Side::Idx(true, I, None, 5),
    Side::Apart(V, U),
    Side::Num(Rel::Eq, 1, 0, 3),
];

/// c <= 0 and -c < 0 behind literals over whole numbers.
const CONFLICT: [Side; 4] = [
    Side::Idx(false, I, None, 0),
    Side::Num(Rel::Le, 1, 0, 0),
    Side::Idx(false, I, None, 1),
    Side::Num(Rel::Lt, -1, 0, 0),
];

/// i <= i - 1 between literals over fractions.
const CYCLE: [Side; 3] = [
    Side::Num(Rel::Le, 1, 0, 0),
    UNDER,
    Side::Num(Rel::Le, 0, 1, 0),
];

/// 2^100 c = 1, (2^100 + 1) d = 1 and c + d <= 5, whose sum is too wide.
const SMALL_C: Side = Side::Num(Rel::Eq, LONG, 0, 1);

const SMALL_D: Side = Side::Num(Rel::Eq, 0, LONG + 1, 1);

const SUM: Side = Side::Num(Rel::Le, 1, 1, 5);

/// i = 5, i <= i - 1, e < 0 and -e < 0.
const FIVE: Side = Side::Idx(true, I, None, 5);

const UNDER: Side = Side::Idx(false, I, I, -1);

const BELOW: Side = Side::Third(Rel::Lt, 1, 0);

const ABOVE: Side = Side::Third(Rel::Lt, -1, 0);

/// What is asked of literals, the kind of the answer, and its numbers.
type Case = (Call, &'static [Side], Kind, &'static [i128]);

const VALUES: &[i128] = &[5, 1, 0, 1, 3, 1, 1, 2, 0, 1, 1, 1, 2, 1, 1, 1];

/// u = v and u != v, alone and behind others, where the equality leads over w.
const SPLIT: [Side; 2] = [Side::Same(U, V), Side::Apart(U, V)];

const SPLIT_OVER: [Side; 6] = [
    UNDER,
    Side::Same(V, W),
    BELOW,
    Side::Apart(U, V),
    ABOVE,
    Side::Same(W, U),
];

const CASES: [Case; 25] = [
    (Call::Exactly, &SPLIT, Kind::Leaf, &[2, 0, 1, 0]),
    (Call::Quickly, &SPLIT, Kind::Leaf, &[2, 0, 1, 0]),
    (Call::Exactly, &[Side::Apart(U, U)], Kind::Leaf, &[1, 0]),
    (Call::Exactly, &SPLIT_OVER, Kind::Leaf, &[4, 0, 6, 0, 2, 0]),
    (
        Call::Patiently,
        &SPLIT_OVER,
        Kind::Leaf,
        &[4, 0, 6, 0, 2, 0],
    ),
    (
        Call::ComponentOfLast,
        &[SMALL_C, Side::Apart(U, V), SMALL_D, SUM],
        Kind::Component,
        &[1, 3, 4],
    ),
    (Call::Exactly, &POINT, Kind::Values, VALUES),
    (Call::Quickly, &POINT, Kind::Values, VALUES),
    (Call::Patiently, &POINT, Kind::Values, VALUES),
    (Call::Exactly, &CONFLICT, Kind::Leaf, &[2, 1, 4, 1]),
    (Call::Quickly, &CONFLICT, Kind::Leaf, &[2, 1, 4, 1]),
    (Call::Patiently, &CONFLICT, Kind::Leaf, &[2, 1, 4, 1]),
    (Call::Exactly, &CYCLE, Kind::Leaf, &[2, 0]),
    (Call::Quickly, &CYCLE, Kind::Leaf, &[2, 0]),
    (Call::Exactly, &[SMALL_C, SMALL_D, SUM], Kind::Strain, &[]),
    (
        Call::Quickly,
        &[SMALL_C, SMALL_D, SUM],
        Kind::Unknown,
        &[1, 2, 3, 0],
    ),
    // the component that is strained stands between the literals of others
    (
        Call::Quickly,
        &[SMALL_C, BELOW, SMALL_D, SUM, FIVE],
        Kind::Unknown,
        &[1, 3, 4, 0],
    ),
    (
        Call::Patiently,
        &[SMALL_C, BELOW, SMALL_D, SUM, FIVE],
        Kind::Unknown,
        &[1, 3, 4, 0],
    ),
    // a contradiction of others isn't hidden by it
    (
        Call::Quickly,
        &[SMALL_C, BELOW, SMALL_D, SUM, ABOVE],
        Kind::Leaf,
        &[2, 1, 5, 1],
    ),
    (
        Call::Patiently,
        &[SMALL_C, BELOW, SMALL_D, SUM, ABOVE],
        Kind::Leaf,
        &[2, 1, 5, 1],
    ),
    (
        Call::Quickly,
        &[SMALL_C, FIVE, SMALL_D, SUM, UNDER],
        Kind::Leaf,
        &[5, 0],
    ),
    (Call::ComponentOfLast, &[], Kind::Component, &[]),
    (
        Call::ComponentOfLast,
        &[SMALL_C, BELOW, SMALL_D],
        Kind::Component,
        &[3],
    ),
    (
        Call::ComponentOfLast,
        &[SMALL_C, BELOW, SMALL_D, SUM],
        Kind::Component,
        &[1, 3, 4],
    ),
    (
        Call::ComponentOfLast,
        &[SUM, BELOW, SMALL_C],
        Kind::Component,
        &[1, 3],
    ),
];

#[test]
fn paths(rt: HostRuntime) -> Result<(), Fail> {
    for (at, (call, sides, kind, wanted)) in CASES.into_iter().enumerate() {
        let mut numbers = List::new(rt.alloc());
        let found = asked(rt.alloc(), call, sides, &mut numbers)?;
        assert_eq!(rt; found, kind, "case {at}");
        assert_eq!(rt; numbers.as_slice(), wanted, "case {at}");
    }
    Ok(())
}
