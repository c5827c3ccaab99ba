//! Equal literals.

ghost use Rattle.std.specs.Prelude.{◌≡◌};
ghost use Rattle.hp_rules.specs.Rules.{same_parts, same_rel, same_row, same_rows};

use hp_lit::{NumLit, Part, Rel};

/// Whether literals are the same, in the same order.
pub fn same_rows(left: &[NumLit], right: &[NumLit]) -> bool
    ensures { result ≡ same_rows left.now right.now }
{
    if left.len() != right.len() {
        return false;
    }
    for at in 0..left.len() {
        if !same_row(&left[at], &right[at]) {
            return false;
        }
    }
    true
}

/// Whether two literals are the same.
fn same_row(left: &NumLit, right: &NumLit) -> bool
    ensures { result ≡ same_row left.now right.now }
{
    same_rel(left.rel, right.rel)
        && same_parts(left.parts.as_slice(), right.parts.as_slice())
        && left.bound == right.bound
}

/// Whether summands are the same, in the same order.
fn same_parts(left: &[Part], right: &[Part]) -> bool
    ensures { result ≡ same_parts left.now right.now }
{
    if left.len() != right.len() {
        return false;
    }
    for at in 0..left.len() {
        if !(left[at].name.0 == right[at].name.0 && left[at].coef == right[at].coef) {
            return false;
        }
    }
    true
}

/// Whether two relations are the same.
fn same_rel(left: Rel, right: Rel) -> bool
    ensures { result ≡ same_rel left right }
{
    match left {
        Rel::Le => match right {
            Rel::Le => true,
            Rel::Lt => false,
            Rel::Eq => false,
        },
        Rel::Lt => match right {
            Rel::Le => false,
            Rel::Lt => true,
            Rel::Eq => false,
        },
        Rel::Eq => match right {
            Rel::Le => false,
            Rel::Lt => false,
            Rel::Eq => true,
        },
    }
}
