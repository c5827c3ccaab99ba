//! The names of a combination in their order, found one after the other without memory.
ghost use Rattle.std.specs.Prelude.{◌≡◌, List, None};
ghost use Rattle.hp_lit.specs.Leaf.{Taken, AreTaken};
ghost use Rattle.hp_farkas.specs.inner.Next.{lesser, least_part, least_name};

use crate::form::num_at;
use hp_lit::{Lit, Name, Part, Share};

/// The lesser of the best so far and a name, which counts only from `from` on.
fn lesser(from: u64, best: Option<Name>, name: Name) -> Option<Name>
    ensures { result ≡ lesser from best name }
{
    if (name.0 as u64) < from {
        return best;
    }
    match best {
        None => Some(name),
        Some(least) => {
            if least.0 <= name.0 {
                Some(least)
            } else {
                Some(name)
            }
        }
    }
}

/// The least of the best so far and the names of the parts from `from` on.
fn least_part(from: u64, best: Option<Name>, parts: &[Part]) -> Option<Name>
    ensures { result ≡ least_part from best parts.now }
{
    let mut best = best;
    for part in parts {
        best = lesser(from, best, part.name);
    }
    best
}

/// The least name from `from` on that occurs in a literal taken, or `None` where there is none.
pub fn least_name(path: &[Lit], shares: &[Share], from: u64) -> Option<Name>
    ensures { (taken : List Taken) → AreTaken path.now shares.now taken → result ≡ least_name from None taken }
{
    let mut best = None;
    for share in shares {
        if let Some(lit) = num_at(path, share.lit) {
            best = least_part(from, best, lit.parts.as_slice());
        }
    }
    best
}
