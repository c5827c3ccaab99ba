//! The elements of arrays: a definition of each array at each index.
ghost use Rattle.std.specs.List.{All};
ghost use Rattle.hp_defs.specs.Made.{IsSmallArg};
ghost use Rattle.hp_base.specs.Making.{Begins, Makes, in_turn};
ghost use Rattle.hp_arrays.specs.Arrays.{element, elements};

use hp_base::definition;
use hp_defs::Ground;
use hp_lit::{Arg, GroundErr};
use hp_num::List;
use std::alloc::Global;

/// Makes the definitions of arrays at indexes: the first array at each index, then the second, in their order. Arrays are
/// functions of one argument, given by their places in the order of declarations, counted from 0.
///
/// Names are limited to 4,000, constants and definitions together; at an error what was there before still is. It asks for
/// whole numbers in indexes of magnitudes of at most 2 * 10^24.
#[tactic(auto, using(hp_base::proofs::Making::begins_trans))]
pub fn add_elements(
    alloc: Global,
    g: &mut Ground,
    own: &[u32],
    indexes: &[Arg],
) -> Result<(), GroundErr>
    requires { All IsSmallArg indexes.now }
    ensures made { Makes (in_turn (elements indexes.now) own.now) g.old g.new result }
    ensures kept { Begins g.old g.new }
{
    for func in own {
        add_elements_of(alloc, g, *func, indexes)?;
    }
    Ok(())
}

/// Makes those of one array.
#[tactic(auto, using(hp_base::proofs::Making::begins_trans))]
fn add_elements_of(
    alloc: Global,
    g: &mut Ground,
    func: u32,
    indexes: &[Arg],
) -> Result<(), GroundErr>
    requires { All IsSmallArg indexes.now }
    ensures made { Makes (elements indexes.now func) g.old g.new result }
    ensures kept { Begins g.old g.new }
{
    for index in indexes {
        add_element(alloc, g, func, *index)?;
    }
    Ok(())
}

/// Makes that of one array at one index.
fn add_element(alloc: Global, g: &mut Ground, func: u32, index: Arg) -> Result<(), GroundErr>
    requires { IsSmallArg index }
    ensures made { Makes (element func index) g.old g.new result }
    ensures kept { Begins g.old g.new }
{
    let mut args = List::new(alloc);
    args.push(index)?;
    definition(alloc, g, func, args)?;
    Ok(())
}
