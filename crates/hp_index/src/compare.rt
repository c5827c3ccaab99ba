//! The literals that compare two index forms: each says a bound on the difference of two names.

ghost use Rattle.std.specs.Prelude.{◌≡◌, ◌-ℤ◌, ◌∷◌, []};
ghost use Rattle.hp_tree.specs.declared.problem.Cmp.TheVariants.{Ne};
ghost use Rattle.hp_lit.specs.declared.literal.Lit.TheVariants.{Idx};
ghost use Rattle.hp_index.specs.Literals.{bound_of, cancel, compared, form_literals};
ghost use Rattle.hp_index.specs.Fit.{IsSmallSide};
ghost use Rattle.hp_index.specs.Answers.{Pushed};

use crate::form::IndexForm;
use hp_lit::{IdxLit, Lit, Name, Rel};
use hp_num::List;
use hp_tree::Cmp;
use std::alloc::AllocError;

/// Adds the literals that compare two forms behind those that are there; one of them is true where the values of the
/// forms stand in the relation. For `l <= r` that is the bound of `l - r`, for `l < r` that bound less one; `>=` and `>`
/// exchange the sides; for `l = r` it is an exact bound, for `l != r` the two literals of `l < r` and then of `r < l`. A
/// name on both sides cancels, and there may be none.
///
/// It asks for numbers beside the names of a magnitude of at most 4 * 10^24. An `Err` comes where memory is short; then
/// the first of two literals may be there, and what was there before still is.
pub fn form_literals(
    cmp: Cmp,
    left: IndexForm,
    right: IndexForm,
    lits: &mut List<Lit>,
) -> Result<(), AllocError>
    requires left { IsSmallSide left.offset }
    requires right { IsSmallSide right.offset }
    ensures { Pushed (form_literals cmp left right) lits.old lits.new result }
{
    match cmp {
        Cmp::Le => push_compared(lits, Rel::Le, left, right),
        Cmp::Lt => push_compared(lits, Rel::Lt, left, right),
        Cmp::Eq => push_compared(lits, Rel::Eq, left, right),
        Cmp::Ne => push_apart(lits, left, right),
        Cmp::Ge => push_compared(lits, Rel::Le, right, left),
        Cmp::Gt => push_compared(lits, Rel::Lt, right, left),
    }
}

/// Adds the two literals that say that two forms differ.
fn push_apart(lits: &mut List<Lit>, left: IndexForm, right: IndexForm) -> Result<(), AllocError>
    requires left { IsSmallSide left.offset }
    requires right { IsSmallSide right.offset }
    ensures { Pushed (form_literals Ne left right) lits.old lits.new result }
{
    push_compared(lits, Rel::Lt, left, right)?;
    push_compared(lits, Rel::Lt, right, left)
}

/// Adds the literal that compares two forms.
fn push_compared(
    lits: &mut List<Lit>,
    rel: Rel,
    left: IndexForm,
    right: IndexForm,
) -> Result<(), AllocError>
    requires left { IsSmallSide left.offset }
    requires right { IsSmallSide right.offset }
    ensures { Pushed (Idx (compared rel left right) ∷ []) lits.old lits.new result }
{
    lits.push(Lit::Idx(compared(rel, left, right)))
}

/// The literal that compares two forms.
fn compared(rel: Rel, left: IndexForm, right: IndexForm) -> IdxLit
    requires left { IsSmallSide left.offset }
    requires right { IsSmallSide right.offset }
    ensures { result ≡ compared rel left right }
{
    let cancels = cancel(left.base, right.base);
    IdxLit {
        exact: match rel {
            Rel::Le | Rel::Lt => false,
            Rel::Eq => true,
        },
        left: if cancels { None } else { left.base },
        right: if cancels { None } else { right.base },
        bound: bound(rel, left.offset, right.offset),
    }
}

/// Whether the two names are one.
fn cancel(left: Option<Name>, right: Option<Name>) -> bool
    ensures { result ≡ cancel left right }
{
    match left {
        None => false,
        Some(left) => match right {
            None => false,
            Some(right) => left.0 == right.0,
        },
    }
}

/// The bound on the difference of two names with these numbers beside them.
fn bound(rel: Rel, left: i128, right: i128) -> i128
    requires left { IsSmallSide left }
    requires right { IsSmallSide right }
    ensures { result ≡ bound_of rel (right -ℤ left) }
{
    match rel {
        Rel::Le | Rel::Eq => right - left,
        Rel::Lt => right - left - 1,
    }
}
