//! Which literals the descent takes.

ghost use Rattle.std.specs.Prelude.{◌≡◌, ◌↔◌, ◌<◌, ◌^◌, true, unsigned_abs};
ghost use Rattle.std.specs.List.{All};
ghost use Rattle.std.specs.List.Sorted.{IsStrictlyIncreasing};
ghost use Rattle.hp_descent.specs.Columns.{AreNumFit};
ghost use Rattle.hp_lit.specs.Fit.{IsNumFit, part_names};

use hp_lit::{NumLit, Part};

/// Whether there are fewer than 2^28 literals, the names of each rise strictly, and no number has a magnitude above
/// 2^127 - 1.
pub fn are_fit(lits: &[NumLit]) -> bool
    ensures { result ≡ true ↔ AreNumFit lits.now }
{
    if lits.len() >= 1 << 28 {
        return false;
    }
    for at in 0..lits.len() {
        if !is_fit(&lits[at]) {
            return false;
        }
    }
    true
}

/// Whether the names of the literal rise strictly, and no number has a magnitude above 2^127 - 1.
fn is_fit(lit: &NumLit) -> bool
    ensures { result ≡ true ↔ IsNumFit lit.now }
{
    lit.bound != i128::MIN && are_rising(lit.parts.as_slice()) && are_narrow(lit.parts.as_slice())
}

/// Whether the names rise strictly.
fn are_rising(parts: &[Part]) -> bool
    ensures { result ≡ true ↔ IsStrictlyIncreasing (part_names parts.now) }
{
    for at in 1..parts.len() {
        if parts[at].name.0 <= parts[at - 1].name.0 {
            return false;
        }
    }
    true
}

/// Whether no coefficient has a magnitude above 2^127 - 1.
fn are_narrow(parts: &[Part]) -> bool
    ensures { result ≡ true ↔ All (λ p. unsigned_abs p.coef < 2 ^ 127) parts.now }
{
    for part in parts {
        if part.coef == i128::MIN {
            return false;
        }
    }
    true
}
