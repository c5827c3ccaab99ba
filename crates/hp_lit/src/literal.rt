ghost use Rattle.std.specs.Prelude.{◌≡◌, IfOk};

use hp_num::List;
use std::alloc::{AllocError, Global};

/// A constant or a definition of a problem: constants first, in the order of their declarations from 0, and then
/// definitions in the order of their making.
#[derive(Clone, Copy, Debug, PartialEq, Eq, PartialOrd, Ord)]
pub struct Name(pub u32);

/// How the left side of a literal over fractions stands to its bound.
#[derive(Clone, Copy, Debug, PartialEq, Eq)]
pub enum Rel {
    Le,
    Lt,
    Eq,
}

/// One summand of a linear form: a whole multiple of a name. The coefficient isn't 0.
#[derive(Clone, Copy, Debug)]
pub struct Part {
    pub name: Name,
    pub coef: i128,
}

/// A literal over fractions: the sum of its parts stands in the relation to the bound. The names of the parts rise
/// strictly, and no number has a magnitude above 2^127 - 1.
#[derive(Drop)]
pub struct NumLit {
    pub rel: Rel,
    pub parts: List<Part>,
    pub bound: i128,
}

/// A literal over whole numbers: `left - right <= bound`, or `left - right = bound` where exact. No name counts as
/// 0. The bound has a magnitude of at most 2^127 - 1.
#[derive(Clone, Copy, Debug, PartialEq, Eq)]
pub struct IdxLit {
    pub exact: bool,
    pub left: Option<Name>,
    pub right: Option<Name>,
    pub bound: i128,
}

/// A literal over pointers: the two are the same, or they are not. No name counts as null.
#[derive(Clone, Copy, Debug, PartialEq, Eq)]
pub struct PtrLit {
    pub same: bool,
    pub left: Option<Name>,
    pub right: Option<Name>,
}

/// A literal of any of the three sorts.
#[derive(Drop)]
pub enum Lit {
    Num(NumLit),
    Idx(IdxLit),
    Ptr(PtrLit),
}

impl NumLit {
    /// An equal literal.
    pub fn copy(&self, alloc: Global) -> Result<NumLit, AllocError>
        ensures { IfOk result (λ copy. copy ≡ self.now) }
    {
        Ok(NumLit {
            rel: self.rel,
            parts: List::from_slice(alloc, self.parts.as_slice())?,
            bound: self.bound,
        })
    }
}

impl Lit {
    /// An equal literal.
    pub fn copy(&self, alloc: Global) -> Result<Lit, AllocError>
        ensures { IfOk result (λ copy. copy ≡ self.now) }
    {
        match self {
            Lit::Num(num) => Ok(Lit::Num(num.copy(alloc)?)),
            Lit::Idx(row) => Ok(Lit::Idx(*row)),
            Lit::Ptr(pair) => Ok(Lit::Ptr(*pair)),
        }
    }
}
