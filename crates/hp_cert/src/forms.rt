//! The texts of names, of linear forms and of arguments, put at the end of one text.
//! What each text is, is said on the data alone, in `specs/Forms.antt`.
//!
//! Where a call here wants memory and has none, a part of its text may be in `out` already, behind what was there.

ghost use Rattle.std.specs.Prelude.{◌≡◌, ◌++◌, codes, OnOk};
ghost use Rattle.std.specs.Fmt.{decimal};
ghost use Rattle.std.specs.List.{join_by};
ghost use Rattle.hp_cert.specs.Forms.{arg_text, by_place, first_multiple, first_part, first_sign, first_summand, further_multiple, further_part, further_sign, further_summand, index_text, lin_text, magnitude_text, multiple_text, name_text, parts_text, rest_text};

use hp_ast::put_frac;
use hp_defs::Names;
use hp_lit::{Arg, Lin, LinPart, Name, Part};
use hp_num::Text;
use hp_text::{put_text, put_whole};
use itoa::Buffer;
use std::alloc::AllocError;

/// Puts the text of a name: the declared name of a constant, and `_` with its number, counted from 1, for a
/// definition.
pub fn put_name(out: &mut Text, names: &Names, name: Name) -> Result<(), AllocError>
    ensures { OnOk result (out.new ≡ out.old ++ name_text names.now name) }
{
    let constants = names.constants();
    let at = name.0 as usize;
    if at < constants.len() {
        return put_text(out, constants[at].name.as_slice());
    }
    put_text(out, b"_")?;
    put_natural(out, (at - constants.len() + 1) as u128)
}

/// Puts the decimal digits of a natural number.
pub fn put_natural(out: &mut Text, n: u128) -> Result<(), AllocError>
    ensures { OnOk result (out.new ≡ out.old ++ decimal n) }
{
    let mut buffer = Buffer::new();
    out.extend_from_slice(buffer.format(n).as_bytes())
}

/// Puts the sign of the first summand of a sum.
fn put_first_sign(out: &mut Text, num: i128) -> Result<(), AllocError>
    ensures { OnOk result (out.new ≡ out.old ++ first_sign num) }
{
    if num < 0 { put_text(out, b"-") } else { Ok(()) }
}

/// Puts the sign of a further summand of a sum.
fn put_further_sign(out: &mut Text, num: i128) -> Result<(), AllocError>
    ensures { OnOk result (out.new ≡ out.old ++ further_sign num) }
{
    put_text(out, if num < 0 { b" - " } else { b" + " })
}

/// Puts a fraction without its sign.
fn put_magnitude(out: &mut Text, num: i128, den: u128) -> Result<(), AllocError>
    ensures { OnOk result (out.new ≡ out.old ++ magnitude_text num den) }
{
    put_natural(out, num.unsigned_abs())?;
    if den != 1 {
        put_text(out, b"/")?;
        put_natural(out, den)?;
    }
    Ok(())
}

/// Puts a multiple of a name without its sign.
fn put_multiple(
    out: &mut Text,
    names: &Names,
    num: i128,
    den: u128,
    name: Name,
) -> Result<(), AllocError>
    ensures { OnOk result (out.new ≡ out.old ++ multiple_text num den (name_text names.now name)) }
{
    if num.unsigned_abs() != 1 || den != 1 {
        put_magnitude(out, num, den)?;
        put_text(out, b"*")?;
    }
    put_name(out, names, name)
}

/// Puts the first multiple of a sum, with its sign.
#[tactic(auto, unfolding(crate::specs::Forms::first_multiple))]
fn put_first(
    out: &mut Text,
    names: &Names,
    num: i128,
    den: u128,
    name: Name,
) -> Result<(), AllocError>
    ensures { OnOk result (out.new ≡ out.old ++ first_multiple names.now num den name) }
{
    put_first_sign(out, num)?;
    put_multiple(out, names, num, den, name)
}

/// Puts a further multiple of a sum, with its sign.
#[tactic(auto, unfolding(crate::specs::Forms::further_multiple))]
fn put_further(
    out: &mut Text,
    names: &Names,
    num: i128,
    den: u128,
    name: Name,
) -> Result<(), AllocError>
    ensures { OnOk result (out.new ≡ out.old ++ further_multiple names.now num den name) }
{
    put_further_sign(out, num)?;
    put_multiple(out, names, num, den, name)
}

/// Puts the number behind the multiples of names, and nothing for 0.
fn put_rest(out: &mut Text, num: i128, den: u128) -> Result<(), AllocError>
    ensures { OnOk result (out.new ≡ out.old ++ rest_text num den) }
{
    if num == 0 {
        return Ok(());
    }
    put_further_sign(out, num)?;
    put_magnitude(out, num, den)
}

/// Puts a sum of whole multiples of names, which is 0 where there is none.
pub fn put_parts(out: &mut Text, names: &Names, parts: &[Part]) -> Result<(), AllocError>
    ensures { OnOk result (out.new ≡ out.old ++ parts_text names.now parts.now) }
{
    if parts.is_empty() {
        return put_text(out, b"0");
    }
    put_multiples(out, names, parts)
}

/// Puts whole multiples of names.
fn put_multiples(out: &mut Text, names: &Names, parts: &[Part]) -> Result<(), AllocError>
    ensures { OnOk result (out.new ≡ out.old ++ by_place (first_part names.now) (further_part names.now) parts.now) }
{
    for (i, part) in parts.iter().enumerate() {
        if i == 0 {
            put_first(out, names, part.coef, 1, part.name)?;
        } else {
            put_further(out, names, part.coef, 1, part.name)?;
        }
    }
    Ok(())
}

/// Puts a sum of multiples of names and a number, which stands last and alone where there is no name.
pub fn put_lin(out: &mut Text, names: &Names, lin: &Lin) -> Result<(), AllocError>
    ensures { OnOk result (out.new ≡ out.old ++ lin_text names.now lin.now) }
{
    if lin.parts.len() == 0 {
        return put_frac(out, lin.rest);
    }
    put_summands(out, names, lin.parts.as_slice())?;
    put_rest(out, lin.rest.num(), lin.rest.den().unsigned_abs())
}

/// Puts multiples of names.
fn put_summands(out: &mut Text, names: &Names, parts: &[LinPart]) -> Result<(), AllocError>
    ensures { OnOk result (out.new ≡ out.old ++ by_place (first_summand names.now) (further_summand names.now) parts.now) }
{
    for (i, part) in parts.iter().enumerate() {
        let num = part.coef.num();
        let den = part.coef.den().unsigned_abs();
        if i == 0 {
            put_first(out, names, num, den, part.name)?;
        } else {
            put_further(out, names, num, den, part.name)?;
        }
    }
    Ok(())
}

/// Puts an argument.
pub fn put_arg(out: &mut Text, names: &Names, arg: Arg) -> Result<(), AllocError>
    ensures { OnOk result (out.new ≡ out.old ++ arg_text names.now arg) }
{
    match arg {
        Arg::Number(value) => put_frac(out, value),
        Arg::Named(name) => put_name(out, names, name),
        Arg::Index { base, offset } => put_index(out, names, base, offset),
        Arg::Null => put_text(out, b"null"),
    }
}

/// Puts a whole number, or a name and the number that is added to it.
fn put_index(
    out: &mut Text,
    names: &Names,
    base: Option<Name>,
    offset: i128,
) -> Result<(), AllocError>
    ensures { OnOk result (out.new ≡ out.old ++ index_text names.now base offset) }
{
    match base {
        None => put_whole(out, offset),
        Some(name) => {
            put_name(out, names, name)?;
            put_rest(out, offset, 1)
        }
    }
}

/// Puts arguments with commas between them.
pub fn put_args(out: &mut Text, names: &Names, args: &[Arg]) -> Result<(), AllocError>
    ensures { OnOk result (out.new ≡ out.old ++ join_by (arg_text names.now) (codes ", ") args.now) }
{
    for (i, arg) in args.iter().enumerate() {
        if i > 0 {
            put_text(out, b", ")?;
        }
        put_arg(out, names, *arg)?;
    }
    Ok(())
}
