//! The line of a clause that breaks a rule of the profile.
//! What the line is, is said on the data alone, in `specs/Text.antt`.

ghost use Rattle.std.specs.Prelude.{◌≡◌, ◌++◌, codes, IfOk, OnOk};
ghost use Rattle.std.specs.List.{join_by};
ghost use Rattle.hp_pairs.specs.Text.{outside_text, place_text, with_text};

use crate::answer::{Outside, PlaceValue};
use hp_ast::put_frac;
use hp_num::Text;
use hp_text::{put_text, put_whole};
use std::alloc::{AllocError, Global};

/// The line that names a clause, the rule that it breaks, and for a rule on two clauses the other one and the point, with a
/// line feed behind it, as in `outside clause 3 rule 4` and `outside clause 5 rule 8 with 2 at $1 = 0, a = -1/2`.
///
/// Numbers are in decimal digits. The entries of the point stand in their order, each a word and its value: a numerator,
/// with `-` in front of a negative one, and behind a `/` the denominator, unless that is 1. An `Err` comes where memory is
/// short.
pub fn outside_text(alloc: Global, outside: &Outside) -> Result<Text, AllocError>
    ensures { IfOk result (λ text. text ≡ outside_text outside.now) }
{
    let mut out = Text::new(alloc);
    put_text(&mut out, b"outside clause ")?;
    put_whole(&mut out, i128::from(outside.clause))?;
    put_text(&mut out, b" rule ")?;
    put_whole(&mut out, i128::from(outside.rule))?;
    if outside.other != 0 {
        put_with(&mut out, outside.other, outside.at.as_slice())?;
    }
    put_text(&mut out, b"\n")?;
    Ok(out)
}

/// Puts the clause that the rule is broken with, and the point. Here as in the calls below, a part may be in `out` where
/// memory is short.
fn put_with(out: &mut Text, other: u32, at: &[PlaceValue]) -> Result<(), AllocError>
    ensures { OnOk result (out.new ≡ out.old ++ with_text other at.now) }
{
    put_text(out, b" with ")?;
    put_whole(out, i128::from(other))?;
    put_text(out, b" at ")?;
    put_places(out, at)
}

/// Puts words and their values with commas between them.
fn put_places(out: &mut Text, places: &[PlaceValue]) -> Result<(), AllocError>
    ensures { OnOk result (out.new ≡ out.old ++ join_by place_text (codes ", ") places.now) }
{
    for (i, place) in places.iter().enumerate() {
        if i > 0 {
            put_text(out, b", ")?;
        }
        put_place(out, place)?;
    }
    Ok(())
}

/// Puts a word and its value.
fn put_place(out: &mut Text, place: &PlaceValue) -> Result<(), AllocError>
    ensures { OnOk result (out.new ≡ out.old ++ place_text place.now) }
{
    put_text(out, place.name.as_slice())?;
    put_text(out, b" = ")?;
    put_frac(out, place.value)
}
