//! The functions of groups.

ghost use Rattle.std.specs.Prelude.{◌≡◌, ◌++◌, IfOk, OnOk};
ghost use Rattle.std.specs.List.{flat_map};
ghost use Rattle.hp_groups.specs.contracts.group.GroupLocalClass.TheImpl.{ghosts};

use crate::group::Group;
use hp_class::LocalClass;
use hp_num::List;
use std::alloc::{AllocError, Global};

/// The functions of groups, one group after the other: their places in the order of declarations, counted from 0. `Err` says
/// that memory was wanting.
pub fn owned(alloc: Global, groups: &[Group]) -> Result<List<u32>, AllocError>
    ensures { IfOk result (λ places. places ≡ flat_map ghosts.own groups.now) }
{
    let mut places = List::new(alloc);
    for group in groups {
        add_places(&mut places, group.own().as_slice())?;
    }
    Ok(places)
}

/// Adds places.
fn add_places(places: &mut List<u32>, more: &[u32]) -> Result<(), AllocError>
    ensures { OnOk result (places.new ≡ places.old ++ more.now) }
{
    for place in more {
        places.push(*place)?;
    }
    Ok(())
}
