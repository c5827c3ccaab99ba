//! Forms over whole numbers without a common divisor.

ghost use Rattle.std.specs.Prelude.{◌≡◌, ◌<◌, ◌^◌, ◌++◌, ◌∷◌, [], map, Ok, OnOk, IfOk, IfErr, unsigned_abs};
ghost use Rattle.std.specs.List.{All};
ghost use Rattle.hp_num.specs.Divisor.{gcd};
ghost use Rattle.hp_lit.specs.declared.refusal.Refusal.TheVariants.{Memory};
ghost use Rattle.hp_linear.specs.Wholes.{IsNarrowPart, IsNarrowRow, denominator_of, lowest_row, multiple_of, one_if_zero, over, parts_divisor, row_divisor, row_of, scaled_parts, scaled_row, whole_copies};
ghost use Rattle.hp_linear.specs.Answers.{Answers};

use crate::numbers::{lcm, magnitude, scaled};
use hp_lit::{Lin, LinPart, Name, Part, Refusal};
use hp_num::{List, gcd};
use std::alloc::Global;

/// A sum of whole copies of names and a whole number.
#[derive(Drop)]
pub struct Row {
    pub parts: List<Part>,
    pub constant: i128,
}

/// A form times the least common multiple of its denominators, over the greatest common divisor of its numbers.
pub fn row_of(alloc: Global, form: &Lin) -> Result<Row, Refusal>
    ensures row { Answers (row_of form.now) result }
    ensures narrow { IfOk result (λ row. unsigned_abs row.constant < 2 ^ 127) }
{
    let multiple = denominator(form)?;
    let row = scaled_row(alloc, multiple, form)?;
    lowest(alloc, &row)
}

/// The least common multiple of the denominators, that of the constant last.
fn denominator(form: &Lin) -> Result<u128, Refusal>
    ensures value { result ≡ denominator_of form.now }
    ensures narrow { IfOk result (λ multiple. multiple < 2 ^ 127) }
{
    let multiple = multiple_of(form.parts.as_slice())?;
    lcm(multiple, form.rest.den().unsigned_abs())
}

/// The least common multiple of the denominators of coefficients.
fn multiple_of(summands: &[LinPart]) -> Result<u128, Refusal>
    ensures { result ≡ multiple_of 1 summands.now }
{
    let mut multiple = 1;
    for summand in summands {
        multiple = lcm(multiple, summand.coef.den().unsigned_abs())?;
    }
    Ok(multiple)
}

/// A form times a common multiple of its denominators.
fn scaled_row(alloc: Global, multiple: u128, form: &Lin) -> Result<Row, Refusal>
    requires { multiple < 2 ^ 127 }
    ensures row { Answers (scaled_row multiple form.now) result }
    ensures narrow { IfOk result IsNarrowRow }
{
    let parts = scaled_parts(alloc, multiple, form.parts.as_slice())?;
    let constant = scaled(multiple, form.rest)?;
    Ok(Row { parts, constant })
}

/// Summands times a common multiple of their denominators.
fn scaled_parts(alloc: Global, multiple: u128, summands: &[LinPart]) -> Result<List<Part>, Refusal>
    requires { multiple < 2 ^ 127 }
    ensures parts { Answers (scaled_parts multiple summands.now) result }
    ensures narrow { IfOk result (All IsNarrowPart) }
{
    let mut parts = List::new(alloc);
    for summand in summands {
        let coef = scaled(multiple, summand.coef)?;
        push(&mut parts, summand.name, coef)?;
    }
    Ok(parts)
}

/// Adds a part at the end.
fn push(parts: &mut List<Part>, name: Name, coef: i128) -> Result<(), Refusal>
    ensures ok { OnOk result (parts.new ≡ parts.old ++ whole_copies name coef ∷ []) }
    ensures err { IfErr result (λ refusal. refusal ≡ Memory) }
{
    match parts.push(Part { name, coef }) {
        Ok(()) => Ok(()),
        Err(_) => Err(Refusal::Memory),
    }
}

/// A row over the greatest common divisor of its numbers, or as it is where all of them are 0.
fn lowest(alloc: Global, row: &Row) -> Result<Row, Refusal>
    requires { IsNarrowRow row.now }
    ensures row { Answers (Ok (lowest_row row.now)) result }
    ensures narrow { IfOk result (λ lowest. unsigned_abs lowest.constant < 2 ^ 127) }
{
    let divisor = one_if_zero(row_divisor(row));
    let parts = parts_over(alloc, divisor, row.parts.as_slice())?;
    let constant = row.constant / divisor as i128;
    Ok(Row { parts, constant })
}

/// The number, but 1 in place of 0.
fn one_if_zero(number: u128) -> u128
    ensures value { result ≡ one_if_zero number }
    ensures positive { 0 < result }
{
    if number == 0 { 1 } else { number }
}

/// The greatest common divisor of the numbers of a row.
fn row_divisor(row: &Row) -> u128
    requires { IsNarrowRow row.now }
    ensures value { result ≡ row_divisor row.now }
    ensures narrow { result < 2 ^ 127 }
{
    gcd(parts_divisor(row.parts.as_slice()), magnitude(row.constant))
}

/// The greatest common divisor of the coefficients of parts.
fn parts_divisor(parts: &[Part]) -> u128
    requires { All IsNarrowPart parts.now }
    ensures value { result ≡ parts_divisor 0 parts.now }
    ensures narrow { result < 2 ^ 127 }
{
    let mut divisor = 0;
    for part in parts {
        divisor = joined(divisor, part);
    }
    divisor
}

/// The greatest common divisor of a number and a coefficient.
fn joined(divisor: u128, part: &Part) -> u128
    requires divisor { divisor < 2 ^ 127 }
    requires part { IsNarrowPart part.now }
    ensures value { result ≡ gcd divisor (unsigned_abs part.now.coef) }
    ensures narrow { result < 2 ^ 127 }
{
    gcd(divisor, magnitude(part.coef))
}

/// Parts over a divisor of their coefficients.
fn parts_over(alloc: Global, divisor: u128, parts: &[Part]) -> Result<List<Part>, Refusal>
    requires positive { 0 < divisor }
    requires small { divisor < 2 ^ 127 }
    ensures ok { IfOk result (λ all. all ≡ map (over divisor) parts.now) }
    ensures err { IfErr result (λ refusal. refusal ≡ Memory) }
{
    let mut all = List::new(alloc);
    for part in parts {
        push(&mut all, part.name, part.coef / divisor as i128)?;
    }
    Ok(all)
}
