//! What the checks of combinations and leaves answer to those whose answers are known by hand, and renumbered leaves.
ghost use Rattle.std.specs.Prelude.{◌≡◌, true};
ghost use Rattle.std.specs.List.{All};
ghost use Rattle.hp_leaf.specs.Check.{HasNarrowBound};

use hp_farkas::check_num;
use hp_leaf::{LeafProof, check_leaf, place_at, renumber_links, renumber_shares, renumber_steps};
use hp_lit::{IdxLit, Lit, Name, NumLit, Part, PtrLit, Rel, Share, Step};
use hp_num::{List, Op, Wide};
use std::alloc::{AllocError, Global};

const LARGEST: i128 = i128::MAX;

const ZERO: Option<Name> = None;

const I: Option<Name> = Some(Name(0));

const J: Option<Name> = Some(Name(1));

const U: Option<Name> = Some(Name(2));

const V: Option<Name> = Some(Name(3));

const W: Option<Name> = Some(Name(4));

fn bound(exact: bool, left: Option<Name>, right: Option<Name>, bound: i128) -> Lit {
    Lit::Idx(IdxLit {
        exact,
        left,
        right,
        bound,
    })
}

fn pointers(same: bool, left: Option<Name>, right: Option<Name>) -> Lit {
    Lit::Ptr(PtrLit { same, left, right })
}

/// Bounds of whole numbers, the fourth and fifth of them trivial but for their size, and then pointers.
fn path(alloc: Global) -> Result<Vec<Lit>, AllocError> {
    let mut path = Vec::new(alloc);
    path.push(bound(false, I, J, -1))?;
    path.push(bound(true, J, I, 0))?;
    path.push(bound(false, I, ZERO, LARGEST))?;
    path.push(bound(false, ZERO, I, 1))?;
    path.push(bound(false, J, I, 1))?;
    path.push(pointers(true, U, V))?;
    path.push(pointers(true, W, V))?;
    path.push(pointers(false, U, W))?;
    path.push(pointers(false, U, U))?;
    Ok(path)
}

/// A relation, the coefficients of names 0 and 1, and a bound. A name whose coefficient is 0 is left out.
type Sum = (Rel, i128, i128, i128);

const SUMS: [Sum; 8] = [
    (Rel::Le, 2, 0, 1),
    (Rel::Le, -2, 0, -2),
    (Rel::Le, -1, 0, -1),
    (Rel::Le, 1, 0, 1),
    (Rel::Lt, 1, 0, 1),
    (Rel::Eq, 1, 0, 2),
    (Rel::Le, 1, 0, 0),
    (Rel::Le, 1, 2, 0),
];

fn sum(alloc: Global, sum: Sum) -> Result<Lit, AllocError> {
    let (rel, first, second, bound) = sum;
    let mut parts = List::new(alloc);
    if first != 0 {
        parts.push(Part {
            name: Name(0),
            coef: first,
        })?;
    }
    if second != 0 {
        parts.push(Part {
            name: Name(1),
            coef: second,
        })?;
    }
    Ok(Lit::Num(NumLit { rel, parts, bound }))
}

/// The sums as literals, a bound of whole numbers as the ninth, and `0 = 1` as the tenth.
fn sums(alloc: Global) -> Result<Vec<Lit>, AllocError> {
    let mut path = Vec::new(alloc);
    for each in SUMS {
        path.push(sum(alloc, each)?)?;
    }
    path.push(bound(false, ZERO, ZERO, -1))?;
    path.push(sum(alloc, (Rel::Eq, 0, 0, 1))?)?;
    Ok(path)
}

fn is_narrow(lit: &Lit) -> bool
    ensures { result ≡ true → HasNarrowBound lit.now }
{
    match lit {
        Lit::Idx(row) => -LARGEST <= row.bound,
        Lit::Num(_) => true,
        Lit::Ptr(_) => true,
    }
}

fn are_narrow(lits: &[Lit]) -> bool
    ensures { result ≡ true → All HasNarrowBound lits.now }
{
    lits.iter().all(|lit| is_narrow(lit))
}

/// The number of a literal, and its multiplier.
type Taken = (u32, i128);

const COMBINATIONS: [(&[Taken], Result<bool, (i128, Op, i128)>); 19] = [
    (&[(1, 1), (2, 1)], Ok(true)),
    (&[(1, 1), (3, 2)], Ok(true)),
    (&[(1, 1), (3, 1)], Ok(false)),
    (&[(3, 1), (4, 1)], Ok(false)),
    (&[(3, 1), (5, 1)], Ok(true)),
    (&[(4, 1), (6, -1)], Ok(true)),
    (&[(1, LARGEST), (3, 1)], Err((LARGEST, Op::Times, 2))),
    (&[(4, LARGEST), (7, 1)], Err((LARGEST, Op::Plus, 1))),
    (&[(8, LARGEST)], Err((LARGEST, Op::Times, 2))),
    (&[], Ok(false)),
    (&[(0, 1), (1, 1), (2, 1)], Ok(false)),
    (&[(1, 1), (2, 1), (11, 1)], Ok(false)),
    (&[(1, 1), (2, 1), (9, 1)], Ok(false)),
    (&[(1, 1), (2, 1), (4, 0)], Ok(false)),
    (&[(2, 1), (1, 1)], Ok(false)),
    (&[(1, 1), (1, 1), (2, 2)], Ok(false)),
    (&[(4, -1), (7, 1)], Ok(false)),
    (&[(10, -LARGEST)], Ok(true)),
    (&[(10, i128::MIN)], Ok(false)),
];

fn wanted(answer: Result<bool, (i128, Op, i128)>) -> Result<bool, Wide> {
    match answer {
        Ok(is_valid) => Ok(is_valid),
        Err((left, op, right)) => Err(Wide { left, op, right }),
    }
}

fn shares(alloc: Global, taken: &[Taken]) -> Result<List<Share>, AllocError> {
    let mut shares = List::new(alloc);
    for (lit, times) in taken {
        shares.push(Share {
            lit: *lit,
            times: *times,
        })?;
    }
    Ok(shares)
}

#[test]
fn combinations(rt: HostRuntime) -> Result<(), AllocError> {
    let path = sums(rt.alloc())?;
    assert!(rt; are_narrow(&path));
    for (taken, answer) in COMBINATIONS {
        let shares = shares(rt.alloc(), taken)?;
        assert_eq!(rt; check_num(&path, shares.as_slice()), wanted(answer));
        assert_eq!(rt; check_leaf(&path, &LeafProof::Num(shares)), wanted(answer));
    }
    Ok(())
}

/// Steps, the numbers of literals that are taken backwards with a minus.
const CYCLES: [(&[i8], Result<bool, (i128, Op, i128)>); 12] = [
    (&[1, 2], Ok(true)),
    (&[2, 1], Ok(true)),
    (&[1, 5], Ok(false)),
    (&[1, -1], Ok(false)),
    (&[2, -2], Ok(false)),
    (&[1, 3], Ok(false)),
    (&[1], Ok(false)),
    (&[], Ok(false)),
    (&[0], Ok(false)),
    (&[9], Ok(false)),
    (&[3, 4], Err((LARGEST, Op::Plus, 1))),
    (&[4, 3], Err((1, Op::Plus, LARGEST))),
];

fn steps(alloc: Global, numbers: &[i8]) -> Result<List<Step>, AllocError> {
    let mut steps = List::new(alloc);
    for number in numbers {
        steps.push(Step {
            lit: u32::from(number.unsigned_abs()),
            forward: *number >= 0,
        })?;
    }
    Ok(steps)
}

/// Conflicts of pointers: the disequality, the equalities that lead from one side to the other, and whether they do.
const CONFLICTS: [(u32, &[u32], bool); 7] = [
    (8, &[6, 7], true),
    (8, &[6, 6, 6, 7], true),
    (9, &[], true),
    (8, &[7, 6], false),
    (8, &[], false),
    (6, &[], false),
    (1, &[], false),
];

#[test]
fn cycles_and_conflicts(rt: HostRuntime) -> Result<(), AllocError> {
    let path = path(rt.alloc())?;
    assert!(rt; are_narrow(&path));
    for (numbers, answer) in CYCLES {
        let proof = LeafProof::Idx(steps(rt.alloc(), numbers)?);
        assert_eq!(rt; check_leaf(&path, &proof), wanted(answer));
    }
    for (ne, links, is_valid) in CONFLICTS {
        let path_of = List::from_vec(Vec::from_slice(rt.alloc(), links)?);
        let proof = LeafProof::Ptr { ne, path: path_of };
        assert_eq!(rt; check_leaf(&path, &proof), Ok(is_valid));
    }
    Ok(())
}

#[test]
fn renumbered_leaves(rt: HostRuntime) -> Result<(), AllocError> {
    let places = [2, 5, 9];
    let taken = shares(rt.alloc(), &[(1, 4), (3, -1), (4, 7), (0, 7)])?;
    let renumbered = renumber_shares(rt.alloc(), &places, taken.as_slice())?;
    let wanted = shares(rt.alloc(), &[(2, 4), (9, -1), (0, 7), (0, 7)])?;
    assert_eq!(rt; renumbered.as_slice(), wanted.as_slice());
    let taken = steps(rt.alloc(), &[2, -1, 4])?;
    let renumbered = renumber_steps(rt.alloc(), &places, taken.as_slice())?;
    let wanted = steps(rt.alloc(), &[5, -2, 0])?;
    assert_eq!(rt; renumbered.as_slice(), wanted.as_slice());
    let renumbered = renumber_links(rt.alloc(), &places, &[3, 0, 1, 4])?;
    assert_eq!(rt; renumbered.as_slice(), [9, 0, 2, 0].as_slice());
    assert_eq!(rt; [place_at(&places, 2), place_at(&places, 4)], [5, 0]);
    Ok(())
}
