//! Numbers as terms.
ghost use Rattle.std.specs.Prelude.{◌≡◌, pos, IfOk};
ghost use Rattle.hp_math.specs.Rational.{whole};
ghost use Rattle.hp_local.specs.Rows.{number_term};

use hp_num::{Frac, Whole};
use hp_tree::Term;
use sqlite_items::Boxed;
use std::alloc::{AllocError, Global};

/// The term of a number: itself, or the negation of one for a number below 0. `Err` says that memory was wanting.
pub fn number_term(alloc: Global, number: Frac) -> Result<Term, AllocError>
    ensures { IfOk result (λ term. term ≡ number_term number) }
{
    if number.num() < 0 {
        let positive = Term::Number(number.negated());
        Ok(Term::Neg(Boxed::new(alloc, positive)?))
    } else {
        Ok(Term::Number(number))
    }
}

/// The number 0.
pub fn zero() -> Frac
    ensures { result ≡ whole (pos 0) }
{
    Frac::whole(Whole::new(0))
}
