//! The check of a combination: first its form, then the sum of each name, and at last the sum of the bounds.
ghost use Rattle.std.specs.Prelude.{◌≡◌, List, Ok, true, false};
ghost use Rattle.hp_lit.specs.Leaf.{Taken, IsTaken, AreTaken, IsValidNum};
ghost use Rattle.hp_farkas.specs.Form.{IsCombination};
ghost use Rattle.hp_farkas.specs.Names.{names_of};
ghost use Rattle.hp_farkas.specs.Check.{IsChecked, answer_of, has_strict, is_less, is_refuted, vanish};

use crate::form::{is_combination, num_at};
use crate::next::least_name;
use crate::sums::{sum_of_bounds, sum_of_name};
use hp_lit::{Lit, Rel, Share};
use hp_num::Wide;

/// Whether each name's sum is 0. It goes on after a sum that isn't.
fn names_vanish(path: &[Lit], shares: &[Share]) -> Result<bool, Wide>
    requires { IsCombination path.now shares.now }
    ensures { (taken : List Taken) → AreTaken path.now shares.now taken → result ≡ vanish taken (names_of taken) }
{
    let mut vanish = true;
    let mut from: u64 = 0;
    'names: loop {
        match least_name(path, shares, from) {
            None => return Ok(vanish),
            Some(name) => {
                let sum = sum_of_name(path, shares, name)?;
                vanish = vanish && sum == 0;
                from = name.0 as u64 + 1;
            }
        }
    }
}

/// Whether the literal with this number, counted from 1, is strict.
fn is_strict(path: &[Lit], share: Share) -> bool
    ensures { (taken : Taken) → IsTaken path.now share taken → result ≡ is_less taken.lit.rel }
{
    match num_at(path, share.lit) {
        None => false,
        Some(lit) => lit.rel == Rel::Lt,
    }
}

/// Whether a literal taken is strict.
fn has_strict(path: &[Lit], shares: &[Share]) -> bool
    ensures { (taken : List Taken) → AreTaken path.now shares.now taken → result ≡ has_strict taken }
{
    for share in shares {
        if is_strict(path, *share) {
            return true;
        }
    }
    false
}

/// Whether the sum of bounds is below 0, or is 0 with a strict literal among those taken.
fn is_refuted(path: &[Lit], shares: &[Share], bound: i128) -> bool
    ensures { (taken : List Taken) → AreTaken path.now shares.now taken → result ≡ is_refuted taken bound }
{
    bound < 0 || bound == 0 && has_strict(path, shares)
}

/// Whether a combination adds to nothing below 0: the sums of the names, and then the sum of the bounds.
fn add_up(path: &[Lit], shares: &[Share]) -> Result<bool, Wide>
    requires { IsCombination path.now shares.now }
    ensures { (taken : List Taken) → AreTaken path.now shares.now taken → result ≡ answer_of taken }
{
    let vanish = names_vanish(path, shares)?;
    let bound = sum_of_bounds(path, shares)?;
    Ok(vanish && is_refuted(path, shares, bound))
}

/// Whether the shares are a combination that adds to nothing below 0, or the first product or sum on the way whose
/// magnitude is above 2^127 - 1.
///
/// The shares' literals count from 1 along the path. The form is tested before anything is added: each number is one
/// of a literal over fractions, the numbers rise, and a multiplier has a magnitude of at most 2^127 - 1, and is positive,
/// or negative at an equality. What is of wrong form is answered with `false`. Then the multiplied coefficients are added
/// name by name, the least name first, and at last the multiplied bounds; each time share by share, the product before the
/// sum. A literal without the name adds nothing there. The answer is `true` where each name's sum is 0, and the sum of the
/// bounds is below 0, or is 0 with a strict literal among those taken. Takes no memory.
pub fn check_num(path: &[Lit], shares: &[Share]) -> Result<bool, Wide>
    ensures checked { IsChecked path.now shares.now result }
    ensures valid { result ≡ Ok true → IsValidNum path.now shares.now }
    ensures invalid { result ≡ Ok false → IsValidNum path.now shares.now → ⊥ }
{
    if !is_combination(path, shares) {
        return Ok(false);
    }
    add_up(path, shares)
}
