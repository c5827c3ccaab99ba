//! The sums of a combination, share by share: of a name's multiplied coefficients, and of the multiplied bounds.
ghost use Rattle.std.specs.Prelude.{◌≡◌, List, pos};
ghost use Rattle.hp_lit.specs.Leaf.{Taken, IsTaken, AreTaken};
ghost use Rattle.hp_farkas.specs.Sums.{add_product, add_parts, sum_from, bound_from};

use crate::form::num_at;
use hp_lit::{Lit, Name, Part, Share};
use hp_num::{Wide, plus, times};

/// The sum so far.
#[derive(Clone, Copy)]
struct Total {
    sum: i128,
}

/// The sum with a product added: first the product is made, and then the sum.
fn add_product(sum: i128, left: i128, right: i128) -> Result<i128, Wide>
    ensures { result ≡ add_product sum left right }
{
    let product = times(left, right)?;
    plus(sum, product)
}

/// The sum with the multiplied coefficient of a name added, where the parts have the name.
fn add_parts(name: Name, multiplier: i128, sum: i128, parts: &[Part]) -> Result<i128, Wide>
    ensures { result ≡ add_parts name.0 multiplier sum parts.now }
{
    let mut total = Total { sum };
    for part in parts {
        if part.name.0 == name.0 {
            total = Total {
                sum: add_product(total.sum, multiplier, part.coef)?,
            };
        }
    }
    Ok(total.sum)
}

/// The sum with what a share adds to it at a name.
fn add_share(path: &[Lit], share: Share, name: Name, sum: i128) -> Result<i128, Wide>
    ensures { (taken : Taken) → IsTaken path.now share taken → result ≡ add_parts name.0 taken.times sum taken.lit.parts }
{
    match num_at(path, share.lit) {
        None => Ok(sum),
        Some(lit) => add_parts(name, share.times, sum, lit.parts.as_slice()),
    }
}

/// The sum with the multiplied bound of a share added.
fn add_bound(path: &[Lit], share: Share, sum: i128) -> Result<i128, Wide>
    ensures { (taken : Taken) → IsTaken path.now share taken → result ≡ add_product sum taken.times taken.lit.bound }
{
    match num_at(path, share.lit) {
        None => Ok(sum),
        Some(lit) => add_product(sum, share.times, lit.bound),
    }
}

/// The sum of a name's multiplied coefficients, share by share.
pub fn sum_of_name(path: &[Lit], shares: &[Share], name: Name) -> Result<i128, Wide>
    ensures { (taken : List Taken) → AreTaken path.now shares.now taken → result ≡ sum_from name.0 (pos 0) taken }
{
    let mut total = Total { sum: 0 };
    for share in shares {
        total = Total {
            sum: add_share(path, *share, name, total.sum)?,
        };
    }
    Ok(total.sum)
}

/// The sum of the multiplied bounds, share by share.
pub fn sum_of_bounds(path: &[Lit], shares: &[Share]) -> Result<i128, Wide>
    ensures { (taken : List Taken) → AreTaken path.now shares.now taken → result ≡ bound_from (pos 0) taken }
{
    let mut total = Total { sum: 0 };
    for share in shares {
        total = Total {
            sum: add_bound(path, *share, total.sum)?,
        };
    }
    Ok(total.sum)
}
