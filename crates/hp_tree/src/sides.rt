//! Relations of the two sides of an atom, and what is asked of them where the atom is to be true or false.

ghost use Rattle.std.specs.Prelude.{◌≡◌};
ghost use Rattle.hp_tree.specs.Sides.{negated, signed};

use crate::problem::Cmp;

/// The relation that holds where this one does not.
pub fn negated(cmp: Cmp) -> Cmp
    ensures { result ≡ negated cmp }
{
    match cmp {
        Cmp::Le => Cmp::Gt,
        Cmp::Lt => Cmp::Ge,
        Cmp::Eq => Cmp::Ne,
        Cmp::Ne => Cmp::Eq,
        Cmp::Ge => Cmp::Lt,
        Cmp::Gt => Cmp::Le,
    }
}

/// The relation that holds where an atom is true, or, where it is not positive, false.
pub fn signed(positive: bool, cmp: Cmp) -> Cmp
    ensures { result ≡ signed positive cmp }
{
    if positive { cmp } else { negated(cmp) }
}
