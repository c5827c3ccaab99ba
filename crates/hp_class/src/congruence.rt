//! The lines of each two applications of a function, function by function.

ghost use Rattle.std.specs.Prelude.{◌≡◌, ◌<◌, OnOk, length};
ghost use Rattle.std.specs.List.{All};
ghost use Rattle.hp_defs.specs.Places;
ghost use Rattle.hp_base.specs.Congruence.{congruence_at};
ghost use Rattle.hp_base.specs.Making.{Begins, Makes, in_turn};
ghost use Rattle.hp_class.specs.Points.{function_lines};

use hp_base::add_congruence;
use hp_defs::Ground;
use hp_lit::GroundErr;
use hp_num::List;
use std::alloc::Global;

/// Adds the lines of functions in this order, given by their places in the order of declarations, counted from 0. The first
/// application of a function stands with each after it, then the second, in the order of making: their arguments differ or
/// their values are equal.
///
/// The limits are those on coefficients, with the item that declares the function, and on lines; at an error what was there
/// before still is.
#[tactic(auto, using(hp_base::proofs::Making::begins_trans))]
pub fn add_function_lines(alloc: Global, g: &mut Ground, funcs: &[u32]) -> Result<(), GroundErr>
    requires { All (λ func. func < length g.old.names.signatures) funcs.now }
    ensures made { Makes (in_turn function_lines funcs.now) g.old g.new result }
    ensures kept { Begins g.old g.new }
{
    for func in funcs {
        lines_of(alloc, g, *func)?;
    }
    Ok(())
}

/// Adds the lines of a function.
fn lines_of(alloc: Global, g: &mut Ground, func: u32) -> Result<(), GroundErr>
    requires { func < length g.old.names.signatures }
    ensures made { Makes (function_lines func) g.old g.new result }
    ensures kept { Begins g.old g.new }
    ensures names { OnOk result (g.new.names ≡ g.old.names) }
{
    let places = List::from_slice(alloc, g.names.of_function(func))?;
    lines_at(alloc, g, func, places.as_slice())
}

/// Adds the lines of a function, whose applications have these places.
#[tactic(auto, using(hp_base::proofs::Making::begins_trans))]
fn lines_at(alloc: Global, g: &mut Ground, func: u32, places: &[u32]) -> Result<(), GroundErr>
    requires known { func < length g.old.names.signatures }
    requires places { places.now ≡ Rattle.hp_defs.specs.Places.places func g.old.names.definitions }
    ensures made { Makes (function_lines func) g.old g.new result }
    ensures kept { Begins g.old g.new }
    ensures names { OnOk result (g.new.names ≡ g.old.names) }
{
    for (at, left) in places.iter().enumerate() {
        lines_with(alloc, g, func, *left, &places[at + 1..])?;
    }
    Ok(())
}

/// Adds the lines of an application with each of others.
#[tactic(auto, using(hp_base::proofs::Making::begins_trans))]
fn lines_with(
    alloc: Global,
    g: &mut Ground,
    func: u32,
    left: u32,
    others: &[u32],
) -> Result<(), GroundErr>
    requires known { func < length g.old.names.signatures }
    requires left { left < length g.old.names.definitions }
    requires others { All (λ place. place < length g.old.names.definitions) others.now }
    ensures made { Makes (in_turn (congruence_at func left) others.now) g.old g.new result }
    ensures kept { Begins g.old g.new }
    ensures names { OnOk result (g.new.names ≡ g.old.names) }
{
    for right in others {
        add_congruence(alloc, g, func, left, *right)?;
    }
    Ok(())
}
