//! The check of a leaf, whatever its kind.
ghost use Rattle.std.specs.Prelude.{◌≡◌, Ok, true, false};
ghost use Rattle.std.specs.List.{All};
ghost use Rattle.hp_leaf.specs.Check.{HasNarrowBound, IsChecked};
ghost use Rattle.hp_leaf.specs.Leaf.{IsValid};

use crate::cycle::check_idx;
use crate::pointer::check_ptr;
use crate::tree::LeafProof;
use hp_farkas::check_num;
use hp_lit::Lit;
use hp_num::Wide;

/// Whether a leaf is valid over the literals of its path, or the first product or sum on the way whose magnitude is
/// above 2^127 - 1.
///
/// Literals count from 1 along the path. The leaf's form is tested before anything is added: the numbers and kinds of
/// its literals, the order of shares, its signs and its links. A leaf of wrong form is answered with `false`. Then the
/// multiples of shares are added name by name and at last their bounds, as `hp_farkas::check_num` says, and the bounds
/// of a cycle step by step. A conflict of pointers adds nothing. Takes no memory. It asks for bounds of a magnitude of at
/// most 2^127 - 1 at the literals over whole numbers.
pub fn check_leaf(path: &[Lit], proof: &LeafProof) -> Result<bool, Wide>
    requires bounds { All HasNarrowBound path.now }
    ensures checked { IsChecked path.now proof.now result }
    ensures valid { result ≡ Ok true → IsValid path.now proof.now }
    ensures invalid { result ≡ Ok false → IsValid path.now proof.now → ⊥ }
{
    match proof {
        LeafProof::Num(shares) => check_num(path, shares.as_slice()),
        LeafProof::Idx(steps) => check_idx(path, steps.as_slice()),
        LeafProof::Ptr { ne, path: links } => Ok(check_ptr(path, *ne, links.as_slice())),
    }
}
