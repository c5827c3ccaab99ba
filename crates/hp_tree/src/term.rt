//! Terms, and their copies.
//! The text of a term is put by `printing`.

ghost use Rattle.std.specs.Prelude.{◌≡◌, IfOk};

use hp_num::{Frac, List, Text};
use sqlite_items::Boxed;
use std::alloc::{AllocError, Global};

/// A term.
#[derive(Drop)]
pub enum Term {
    /// A number.
    Number(Frac),
    /// The pointer that points nowhere.
    Null,
    /// A variable or a constant.
    Name(Text),
    /// A function at its arguments, in their order.
    Apply { func: Text, args: List<Term> },
    /// The sum of two terms.
    Add(Boxed<Term>, Boxed<Term>),
    /// The first term without the second.
    Sub(Boxed<Term>, Boxed<Term>),
    /// The negation of a term.
    Neg(Boxed<Term>),
    /// A number of copies of a term.
    Scale(Frac, Boxed<Term>),
}

impl Term {
    /// An equal term. An `Err` comes where memory is short.
    #[cycle(copy)]
    pub fn copy(&self, alloc: Global) -> Result<Term, AllocError>
        ensures { IfOk result (λ t. t ≡ self.now) }
    {
        match self {
            Term::Number(n) => Ok(Term::Number(*n)),
            Term::Null => Ok(Term::Null),
            Term::Name(name) => Ok(Term::Name(name.copy(alloc)?)),
            Term::Apply { func, args } => Ok(Term::Apply {
                func: func.copy(alloc)?,
                args: copy_all(alloc, args.as_slice())?,
            }),
            Term::Add(left, right) => Ok(Term::Add(
                Boxed::new(alloc, left.get().copy(alloc)?)?,
                Boxed::new(alloc, right.get().copy(alloc)?)?,
            )),
            Term::Sub(left, right) => Ok(Term::Sub(
                Boxed::new(alloc, left.get().copy(alloc)?)?,
                Boxed::new(alloc, right.get().copy(alloc)?)?,
            )),
            Term::Neg(inner) => Ok(Term::Neg(Boxed::new(alloc, inner.get().copy(alloc)?)?)),
            Term::Scale(n, inner) => {
                Ok(Term::Scale(*n, Boxed::new(alloc, inner.get().copy(alloc)?)?))
            }
        }
    }
}

/// Equal terms in their order.
#[cycle(copy)]
fn copy_all(alloc: Global, terms: &[Term]) -> Result<List<Term>, AllocError>
    ensures { IfOk result (λ all. all ≡ terms.now) }
{
    let mut all = List::new(alloc);
    for term in terms {
        all.push(term.copy(alloc)?)?;
    }
    Ok(all)
}
