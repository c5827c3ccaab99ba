//! How far a term is read, and the steps from one token to the next.
//! The steps are those of the machine of terms in `specs/`. A state is large, so each step changes it in its place.
//! Each enum has a drop of its own, which keeps the proofs of its callers short.

ghost use Rattle.std.specs.Prelude.{◌≡◌, ◌<◌, ◌^◌, IfOk, Option, Some, None};
ghost use Rattle.hp_body.specs.Given.{Gives};
ghost use Rattle.hp_body.specs.Moves.{Moves};
ghost use Rattle.hp_body.specs.declared.state.Front.TheVariants.{Nothing};
ghost use Rattle.hp_body.specs.declared.state.Mode.TheVariants.{Part};
ghost use Rattle.hp_body.specs.Machine.{joined, ended, at_minus, at_star, at_slash, at_null, at_name, at_numeral, at_open, is_fresh as is_fresh_mode};

use crate::build::{
    difference_term, name_term, negative_term, null_term, number_term, scale_by, sum_term,
};
use crate::stop::Stop;
use hp_num::{Frac, List, Text};
use hp_tree::Term;
use sqlite_items::Boxed;
use std::alloc::{AllocError, Global};
use std::mem;

/// What stands before the part that is read, in its term.
pub enum Front {
    Nothing,
    Negative,
    Sum(Boxed<Term>),
    Difference(Boxed<Term>),
}

/// How far a term is read behind the innermost open parenthesis.
pub enum Mode {
    /// A part has to follow.
    Part(Front),
    /// Behind the numeral at the head of a part.
    Whole(Front, u64),
    /// Behind a numeral and `/`.
    Over(Front, u64),
    /// Behind a numeral, `/` and a numeral.
    Ratio(Front, Frac),
    /// Behind a number and `*`.
    Times(Front, Frac),
    /// Behind a name, which may be that of a function.
    Named(Front, Option<Frac>, Text),
    /// Behind a factor that is whole.
    Done(Front, Option<Frac>, Term),
}

/// An open parenthesis, and what was read before it.
#[derive(Drop)]
pub enum Frame {
    Group(Front, Option<Frac>),
    Call(Front, Option<Frac>, Text, List<Term>),
}

impl Drop for Front {
    fn drop(self) {
        match self {
            Front::Nothing => {}
            Front::Negative => {}
            Front::Sum(_left) => {}
            Front::Difference(_left) => {}
        }
    }
}

impl Drop for Mode {
    fn drop(self) {
        match self {
            Mode::Part(_front) => {}
            Mode::Whole(_front, _n) => {}
            Mode::Over(_front, _n) => {}
            Mode::Ratio(_front, _q) => {}
            Mode::Times(_front, _q) => {}
            Mode::Named(_front, _number, _name) => {}
            Mode::Done(_front, _number, _factor) => {}
        }
    }
}

impl Front {
    /// The front, for which nothing is left.
    fn taken(&mut self) -> Front
        ensures { result ≡ self.old }
    {
        mem::replace(self, Front::Nothing)
    }

    /// The term with one part more.
    pub(crate) fn join(self, alloc: Global, part: Term) -> Result<Term, AllocError>
        ensures { IfOk result (λ t. t ≡ joined self part) }
    {
        match self {
            Front::Nothing => Ok(part),
            Front::Negative => negative_term(alloc, part),
            Front::Sum(left) => sum_term(alloc, left, part),
            Front::Difference(left) => difference_term(alloc, left, part),
        }
    }
}

impl Mode {
    /// The mode, for which a fresh one is left.
    pub(crate) fn taken(&mut self) -> Mode
        ensures mode { result ≡ self.old }
        ensures fresh { self.new ≡ Part Nothing }
    {
        mem::replace(self, Mode::Part(Front::Nothing))
    }

    /// The term that ends here.
    pub(crate) fn end(self, alloc: Global) -> Result<Term, Stop>
        ensures { Gives (λ t. t) result (ended self) }
    {
        match self {
            Mode::Named(front, number, name) => {
                let part = scale_by(alloc, number, name_term(name))?;
                Ok(front.join(alloc, part)?)
            }
            Mode::Done(front, number, factor) => {
                let part = scale_by(alloc, number, factor)?;
                Ok(front.join(alloc, part)?)
            }
            Mode::Whole(front, n) => {
                let part = number_term(Frac::new(i128::from(n), 1));
                Ok(front.join(alloc, part)?)
            }
            Mode::Ratio(front, q) => Ok(front.join(alloc, number_term(q))?),
            Mode::Part(_front) => Err(Stop::Refused),
            Mode::Over(_front, _n) => Err(Stop::Refused),
            Mode::Times(_front, _q) => Err(Stop::Refused),
        }
    }

    /// Whether no token of the term is read.
    pub(crate) fn is_fresh(&self) -> bool
        ensures { result ≡ is_fresh_mode self.now }
    {
        matches!(self, Mode::Part(Front::Nothing))
    }

    /// Behind `-`, before the term or between two parts.
    pub(crate) fn minus(&mut self, alloc: Global) -> Result<(), Stop>
        ensures { Moves self.new result (at_minus self.old) }
    {
        if self.is_fresh() {
            *self = Mode::Part(Front::Negative);
        } else {
            let term = self.taken().end(alloc)?;
            *self = Mode::Part(Front::Difference(Boxed::new(alloc, term)?));
        }
        Ok(())
    }

    /// Behind `*`, for which a number has to stand before it.
    pub(crate) fn star(&mut self) -> Result<(), Stop>
        ensures { Moves self.new result (at_star self.old) }
    {
        match self {
            Mode::Whole(front, n) => {
                let q = Frac::new(i128::from(*n), 1);
                *self = Mode::Times(front.taken(), q);
                Ok(())
            }
            Mode::Ratio(front, q) => {
                let q = *q;
                *self = Mode::Times(front.taken(), q);
                Ok(())
            }
            _ => Err(Stop::Refused),
        }
    }

    /// Behind `/`, for which a numeral has to stand before it.
    pub(crate) fn slash(&mut self) -> Result<(), Stop>
        ensures { Moves self.new result (at_slash self.old) }
    {
        match self {
            Mode::Whole(front, n) => {
                let n = *n;
                *self = Mode::Over(front.taken(), n);
                Ok(())
            }
            _ => Err(Stop::Refused),
        }
    }

    /// Behind `null`, where a factor may follow.
    pub(crate) fn null(&mut self) -> Result<(), Stop>
        ensures { Moves self.new result (at_null self.old) }
    {
        match self {
            Mode::Part(front) => {
                *self = Mode::Done(front.taken(), None, null_term());
                Ok(())
            }
            Mode::Times(front, q) => {
                let q = *q;
                *self = Mode::Done(front.taken(), Some(q), null_term());
                Ok(())
            }
            _ => Err(Stop::Refused),
        }
    }

    /// Behind a name, where a factor may follow.
    #[inline(never)]
    pub(crate) fn name(&mut self, name: Text) -> Result<(), Stop>
        ensures { Moves self.new result (at_name name self.old) }
    {
        match self {
            Mode::Part(front) => {
                *self = Mode::Named(front.taken(), None, name);
                Ok(())
            }
            Mode::Times(front, q) => {
                let q = *q;
                *self = Mode::Named(front.taken(), Some(q), name);
                Ok(())
            }
            _ => Err(Stop::Refused),
        }
    }

    /// Behind a numeral at the head of a part, or behind one that is not zero under `/`.
    #[inline(never)]
    pub(crate) fn numeral(&mut self, n: u64) -> Result<(), Stop>
        ensures { Moves self.new result (at_numeral n self.old) }
    {
        match self {
            Mode::Part(front) => {
                *self = Mode::Whole(front.taken(), n);
                Ok(())
            }
            Mode::Over(front, top) => {
                if n == 0 {
                    Err(Stop::Refused)
                } else {
                    let q = Frac::new(i128::from(*top), i128::from(n));
                    *self = Mode::Ratio(front.taken(), q);
                    Ok(())
                }
            }
            _ => Err(Stop::Refused),
        }
    }

    /// The parenthesis that opens here, around a term or around arguments.
    pub(crate) fn open(self, alloc: Global) -> Result<Frame, Stop>
        ensures { Gives (λ f. f) result (at_open self) }
    {
        match self {
            Mode::Named(front, number, name) => {
                let args = Vec::with_capacity(alloc, 1)?;
                Ok(Frame::Call(front, number, name, List::from_vec(args)))
            }
            Mode::Part(front) => Ok(Frame::Group(front, None)),
            Mode::Times(front, q) => Ok(Frame::Group(front, Some(q))),
            _ => Err(Stop::Refused),
        }
    }
}
