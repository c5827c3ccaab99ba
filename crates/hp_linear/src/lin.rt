//! Linear forms: numbers, names, and the sums, negations and multiples of forms.
//!
//! The names of the summands rise strictly, and no coefficient is 0.

ghost use Rattle.std.specs.Prelude.{◌≡◌, Ok};
ghost use Rattle.hp_linear.specs.Lins.{minus_lin, named_lin, neg_lin, number_lin, plus_lin, times_lin, word_lin, zero_lin};
ghost use Rattle.hp_linear.specs.Answers.{Answers};

use crate::numbers::{product, sum};
use crate::parts::{merged, multiplied, negated, push};
use hp_lit::{Lin, Name, Refusal};
use hp_num::{Frac, List};
use std::alloc::Global;

/// A number alone.
pub fn number_lin(alloc: Global, number: Frac) -> Lin
    ensures { result ≡ number_lin number }
{
    Lin {
        parts: List::new(alloc),
        rest: number,
    }
}

/// The number 0.
pub fn zero_lin(alloc: Global) -> Lin
    ensures { result ≡ zero_lin }
{
    number_lin(alloc, Frac::new(0, 1))
}

/// One copy of a name. The error is want of memory.
pub fn named_lin(alloc: Global, name: Name) -> Result<Lin, Refusal>
    ensures { Answers (Ok (named_lin name)) result }
{
    let mut parts = List::new(alloc);
    push(&mut parts, name, Frac::new(1, 1))?;
    Ok(Lin {
        parts,
        rest: Frac::new(0, 1),
    })
}

/// One copy of a name, or 0 where there is none.
pub fn word_lin(alloc: Global, name: Option<Name>) -> Result<Lin, Refusal>
    ensures { Answers (Ok (word_lin name)) result }
{
    match name {
        None => Ok(zero_lin(alloc)),
        Some(name) => named_lin(alloc, name),
    }
}

/// The sum of two forms.
pub fn plus_lin(alloc: Global, left: &Lin, right: &Lin) -> Result<Lin, Refusal>
    ensures { Answers (plus_lin left.now right.now) result }
{
    let parts = merged(alloc, left.parts.as_slice(), right.parts.as_slice())?;
    let rest = sum(left.rest, right.rest)?;
    Ok(Lin { parts, rest })
}

/// A form with each sign turned.
pub fn neg_lin(alloc: Global, form: &Lin) -> Result<Lin, Refusal>
    ensures { Answers (Ok (neg_lin form.now)) result }
{
    let parts = negated(alloc, form.parts.as_slice())?;
    Ok(Lin {
        parts,
        rest: form.rest.negated(),
    })
}

/// The first form without the second.
pub fn minus_lin(alloc: Global, left: &Lin, right: &Lin) -> Result<Lin, Refusal>
    ensures { Answers (minus_lin left.now right.now) result }
{
    let right = neg_lin(alloc, right)?;
    plus_lin(alloc, left, &right)
}

/// So many copies of a form.
pub fn times_lin(alloc: Global, number: Frac, form: &Lin) -> Result<Lin, Refusal>
    ensures { Answers (times_lin number form.now) result }
{
    let parts = multiplied(alloc, number, form.parts.as_slice())?;
    let rest = product(number, form.rest)?;
    Ok(Lin { parts, rest })
}
