//! What a ground problem is made of: the bodies of definitions, and lines, each a choice between literals.
//!
//! A line also keeps where it comes from, which no truth depends on and the printed texts need.
use crate::literal::{Lit, Name};
use hp_num::{Frac, List};

/// An argument of a ground application.
#[derive(Clone, Copy)]
pub enum Arg {
    /// A number of sort num.
    Number(Frac),
    /// A name of sort num or ptr.
    Named(Name),
    /// A whole number, or a name of sort idx plus a whole number. No name counts as 0.
    Index { base: Option<Name>, offset: i128 },
    /// The null pointer.
    Null,
}

/// One summand of a sum: a multiple of a name. The coefficient isn't 0.
#[derive(Clone, Copy)]
pub struct LinPart {
    pub name: Name,
    pub coef: Frac,
}

/// A sum of multiples of names of sort num and a number. The names rise strictly.
#[derive(Drop)]
pub struct Lin {
    pub parts: List<LinPart>,
    pub rest: Frac,
}

/// What a definition stands for.
#[derive(Drop)]
pub enum Body {
    /// The function at this place, counted from 0 in the order of declarations, at these arguments.
    Apply { func: u32, args: List<Arg> },
    /// A sum, of sort num.
    Sum(Lin),
}

/// A name that stands for an application or a sum over names before it.
#[derive(Drop)]
pub struct Def {
    pub name: Name,
    pub body: Body,
}

/// Where a line comes from. Clauses count from 1 in the order of the text.
#[derive(Drop)]
pub enum Origin {
    /// A clause without variables.
    Ground { clause: u32 },
    /// A clause at one argument for each of its variables.
    At { clause: u32, tuple: List<Arg> },
    /// Two applications of one function: equal arguments have equal values.
    Equal { left: Name, right: Name },
    /// One side of the equation between a sum's name and the sum.
    SumOf { name: Name },
}

/// A choice: one of the literals is true. A line without literals is never true.
#[derive(Drop)]
pub struct Line {
    pub lits: List<Lit>,
    pub origin: Origin,
}
