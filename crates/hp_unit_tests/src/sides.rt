//! Literals over two whole numbers i and j, three fractions c, d and e and three pointers u, v and w, from short
//! descriptions.

use hp_lit::{IdxLit, Lit, Name, NumLit, Part, PtrLit, Rel};
use hp_num::List;
use hp_tree::Sort;
use std::alloc::{AllocError, Global};

/// A literal over whole numbers (whether it is an equality, a name less another, and a bound), one over the fractions c
/// and d (a relation, their coefficients, and a bound), one over e, or one over pointers (two that are the same, or not).
#[derive(Clone, Copy)]
pub enum Side {
    Idx(bool, Option<Name>, Option<Name>, i128),
    Num(Rel, i128, i128, i128),
    Third(Rel, i128, i128),
    Same(Option<Name>, Option<Name>),
    Apart(Option<Name>, Option<Name>),
}

pub const I: Option<Name> = Some(Name(0));

/// The names of sort num, which follow i and j.
const C: u32 = 2;

const D: u32 = 3;

const E: u32 = 4;

/// The names of sort ptr, which follow c, d and e.
pub const U: Option<Name> = Some(Name(5));

pub const V: Option<Name> = Some(Name(6));

pub const W: Option<Name> = Some(Name(7));

/// The sorts of i and j, of c, d and e, and of u, v and w.
pub const SORTS: [Sort; 8] = [
    Sort::Idx,
    Sort::Idx,
    Sort::Num,
    Sort::Num,
    Sort::Num,
    Sort::Ptr,
    Sort::Ptr,
    Sort::Ptr,
];

/// A part, where the coefficient isn't 0.
fn push_part(parts: &mut List<Part>, name: u32, coef: i128) -> Result<(), AllocError> {
    if coef != 0 {
        parts.push(Part {
            name: Name(name),
            coef,
        })?;
    }
    Ok(())
}

fn literal(alloc: Global, side: Side) -> Result<Lit, AllocError> {
    let mut parts = List::new(alloc);
    match side {
        Side::Idx(exact, left, right, bound) => Ok(Lit::Idx(IdxLit {
            exact,
            left,
            right,
            bound,
        })),
        Side::Num(rel, c, d, bound) => {
            push_part(&mut parts, C, c)?;
            push_part(&mut parts, D, d)?;
            Ok(Lit::Num(NumLit { rel, parts, bound }))
        }
        Side::Third(rel, e, bound) => {
            push_part(&mut parts, E, e)?;
            Ok(Lit::Num(NumLit { rel, parts, bound }))
        }
        Side::Same(left, right) => Ok(Lit::Ptr(PtrLit {
            same: true,
            left,
            right,
        })),
        Side::Apart(left, right) => Ok(Lit::Ptr(PtrLit {
            same: false,
            left,
            right,
        })),
    }
}

pub fn literals(alloc: Global, sides: &[Side]) -> Result<List<Lit>, AllocError> {
    let mut lits = List::new(alloc);
    for side in sides {
        lits.push(literal(alloc, *side)?)?;
    }
    Ok(lits)
}
