//! What arguments and names are worth.
ghost use Rattle.std.specs.Prelude.{◌≡◌, pos, IfOk};
ghost use Rattle.std.specs.List.{All};
ghost use Rattle.hp_math.specs.Rational.{◌+ℚ◌, whole};
ghost use Rattle.hp_lit.specs.Truth.{name_value, optional_value};
ghost use Rattle.hp_base.specs.Congruence.{body_args};
ghost use Rattle.hp_base.specs.Values.{arg_value, arg_values};
ghost use Rattle.hp_class.specs.Small.{IsSmallAt, IsSmallSum};

use hp_lit::{Arg, Body, Name};
use hp_num::{Frac, List, Whole};
use hp_shapes::zero;
use std::alloc::{AllocError, Global};

/// The values of arguments.
pub fn arg_values(alloc: Global, args: &[Arg], values: &[Frac]) -> Result<List<Frac>, AllocError>
    requires { All (IsSmallAt values.now) args.now }
    ensures { IfOk result (λ found. found ≡ arg_values values.now args.now) }
{
    let mut found = List::new(alloc);
    for arg in args {
        found.push(arg_value(*arg, values))?;
    }
    Ok(found)
}

/// The value of an argument.
pub fn arg_value(arg: Arg, values: &[Frac]) -> Frac
    requires { IsSmallAt values.now arg }
    ensures { result ≡ arg_value values.now arg }
{
    match arg {
        Arg::Number(number) => number,
        Arg::Named(name) => name_value(name, values),
        Arg::Index { base, offset } => shifted(optional_value(base, values), offset),
        Arg::Null => zero(),
    }
}

/// The value of a name, which is 0 past the end.
pub fn name_value(name: Name, values: &[Frac]) -> Frac
    ensures { result ≡ name_value values.now name.0 }
{
    let at = name.0 as usize;
    if at < values.len() {
        values[at]
    } else {
        zero()
    }
}

/// The value of a name, or 0 where there is none.
pub fn optional_value(name: Option<Name>, values: &[Frac]) -> Frac
    ensures { result ≡ optional_value values.now name }
{
    match name {
        Some(name) => name_value(name, values),
        None => zero(),
    }
}

/// The sum of a whole number and an offset.
pub fn shifted(base: Frac, offset: i128) -> Frac
    requires { IsSmallSum base offset }
    ensures { result ≡ base +ℚ whole offset }
{
    Frac::whole(Whole::new(base.num() + offset))
}

/// The arguments of an application.
pub fn args_of(body: &Body) -> &[Arg]
    ensures { result.now ≡ body_args body.now }
{
    match body {
        Body::Apply { args, .. } => args.as_slice(),
        Body::Sum(_) => &[],
    }
}
