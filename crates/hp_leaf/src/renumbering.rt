//! Evidence over some literals of a path, given the numbers that the literals have along the path.
//! That it stays valid is a law of this crate, `renumbering_keeps_leaves`.
ghost use Rattle.std.specs.Prelude.{◌≡◌, IfOk};
ghost use Rattle.hp_leaf.specs.Renumbered.{place_at, renumbered_links, renumbered_share, renumbered_shares, renumbered_step, renumbered_steps};

use hp_lit::{Share, Step};
use hp_num::List;
use std::alloc::{AllocError, Global};

/// The place with this number, counted from 1, or 0 where there is none.
///
/// `places` holds, in the order of some literals of a path, the number of each along the path, which counts from 1.
pub fn place_at(places: &[u32], number: u32) -> u32
    ensures { result ≡ place_at places.now number }
{
    if number == 0 {
        return 0;
    }
    match places.get(number as usize - 1) {
        None => 0,
        Some(place) => *place,
    }
}

/// The shares in their order with the same multipliers, each literal by its place.
///
/// `places` holds, in the order of the literals that the shares count from 1, the number of each along the path, which
/// counts from 1 too. A share of a literal without a place takes literal 0, which no path has. An `Err` comes where
/// memory is short.
pub fn renumber_shares(
    alloc: Global,
    places: &[u32],
    shares: &[Share],
) -> Result<List<Share>, AllocError>
    ensures { IfOk result (λ renumbered. renumbered ≡ renumbered_shares places.now shares.now) }
{
    let mut renumbered = List::new(alloc);
    for share in shares {
        renumbered.push(Share {
            lit: place_at(places, share.lit),
            times: share.times,
        })?;
    }
    Ok(renumbered)
}

/// The steps in their order with the same directions, each literal by its place.
///
/// `places` is as for `renumber_shares`. A step over a literal without a place takes literal 0, which no path has. An
/// `Err` comes where memory is short.
pub fn renumber_steps(
    alloc: Global,
    places: &[u32],
    steps: &[Step],
) -> Result<List<Step>, AllocError>
    ensures { IfOk result (λ renumbered. renumbered ≡ renumbered_steps places.now steps.now) }
{
    let mut renumbered = List::new(alloc);
    for step in steps {
        renumbered.push(Step {
            lit: place_at(places, step.lit),
            forward: step.forward,
        })?;
    }
    Ok(renumbered)
}

/// The equalities of a conflict in their order, each literal by its place.
///
/// `places` is as for `renumber_shares`. A literal without a place gets 0, which no path has. An `Err` comes where memory
/// is short.
pub fn renumber_links(alloc: Global, places: &[u32], links: &[u32]) -> Result<List<u32>, AllocError>
    ensures { IfOk result (λ renumbered. renumbered ≡ renumbered_links places.now links.now) }
{
    let mut renumbered = List::new(alloc);
    for link in links {
        renumbered.push(place_at(places, *link))?;
    }
    Ok(renumbered)
}
