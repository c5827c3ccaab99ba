//! The form of a combination: which literals a share may take, and in what order. Nothing is added here.
ghost use Rattle.std.specs.Prelude.{◌≡◌, IfSome, IfNone, true, false};
ghost use Rattle.hp_lit.specs.declared.literal.NumLit.{NumLit};
ghost use Rattle.hp_lit.specs.declared.literal.Lit.TheVariants.{Num};
ghost use Rattle.hp_lit.specs.Cycle.{IsLit};
ghost use Rattle.hp_lit.specs.Leaf.{Taken, IsTaken};
ghost use Rattle.hp_farkas.specs.Form.{IsCombination};

use hp_lit::{Lit, NumLit, Rel, Share};

/// The literal with this number, counted from 1, where it is one over fractions.
pub fn num_at(path: &[Lit], number: u32) -> Option<&NumLit>
    ensures some { IfSome result (λ lit. IsLit path.now number (Num lit.now)) }
    ensures none { IfNone result ((lit : NumLit) → IsLit path.now number (Num lit) → ⊥) }
{
    let number = number as usize;
    if number == 0 || path.len() < number {
        return None;
    }
    match &path[number - 1] {
        Lit::Num(lit) => Some(lit),
        Lit::Idx(_) => None,
        Lit::Ptr(_) => None,
    }
}

/// Whether a literal over fractions may be taken this often: not 0 times, less often only if it is an equality, and never
/// -2^127 times.
fn may_take(path: &[Lit], share: Share) -> bool
    ensures yes { result ≡ true → (taken : Taken) × IsTaken path.now share taken }
    ensures no { result ≡ false → (taken : Taken) → IsTaken path.now share taken → ⊥ }
{
    match num_at(path, share.lit) {
        None => false,
        Some(lit) => {
            0 < share.times || i128::MIN < share.times && share.times < 0 && lit.rel == Rel::Eq
        }
    }
}

/// Whether each share may be taken, and the numbers of their literals rise.
pub fn is_combination(path: &[Lit], shares: &[Share]) -> bool
    ensures yes { result ≡ true → IsCombination path.now shares.now }
    ensures no { result ≡ false → IsCombination path.now shares.now → ⊥ }
{
    let mut last = 0;
    for share in shares {
        if share.lit <= last || !may_take(path, *share) {
            return false;
        }
        last = share.lit;
    }
    true
}
