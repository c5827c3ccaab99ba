//! The check of a conflict of pointers: an inequality, and equalities that lead from its left to its right name.
//! Nothing is added, so nothing can pass 128 bits.
ghost use Rattle.std.specs.Prelude.{◌≡◌, Option, IfSome, IfNone, true, false};
ghost use Rattle.hp_lit.specs.declared.literal.Name.{Name};
ghost use Rattle.hp_lit.specs.Pointers.{IsValidPtr, Joins, JoinsAll};

use crate::side::is_same;
use hp_lit::{Lit, Name};

/// The side that an equality leads to.
#[derive(Clone, Copy)]
struct End {
    side: Option<Name>,
}

/// The other side of an equality of the path, where one of its sides is `from`.
fn other_side(path: &[Lit], number: u32, from: Option<Name>) -> Option<End>
    ensures some { IfSome result (λ end. Joins path.now number from end.side) }
    ensures none { IfNone result ((to : Option Name) → Joins path.now number from to → ⊥) }
{
    let number = number as usize;
    if number == 0 || path.len() < number {
        return None;
    }
    match &path[number - 1] {
        Lit::Ptr(lit) => {
            if !lit.same {
                None
            } else if is_same(lit.left, from) {
                Some(End { side: lit.right })
            } else if is_same(lit.right, from) {
                Some(End { side: lit.left })
            } else {
                None
            }
        }
        Lit::Num(_) => None,
        Lit::Idx(_) => None,
    }
}

/// Whether the equalities lead from one name to another.
fn leads(path: &[Lit], links: &[u32], from: Option<Name>, to: Option<Name>) -> bool
    ensures yes { result ≡ true → JoinsAll path.now from links.now to }
    ensures no { result ≡ false → JoinsAll path.now from links.now to → ⊥ }
{
    let mut at = from;
    for link in links {
        match other_side(path, *link, at) {
            None => return false,
            Some(end) => at = end.side,
        }
    }
    is_same(at, to)
}

/// Whether the literal is an inequality and the equalities lead from its left to its right name.
pub fn check_ptr(path: &[Lit], ne: u32, links: &[u32]) -> bool
    ensures valid { result ≡ true → IsValidPtr path.now ne links.now }
    ensures invalid { result ≡ false → IsValidPtr path.now ne links.now → ⊥ }
{
    let number = ne as usize;
    if number == 0 || path.len() < number {
        return false;
    }
    match &path[number - 1] {
        Lit::Ptr(lit) => !lit.same && leads(path, links, lit.left, lit.right),
        Lit::Num(_) => false,
        Lit::Idx(_) => false,
    }
}
