//! Elimination over lines: the coefficients of a row, its bound, and the multipliers of all rows.
//!
//! Each step is over whole numbers, a difference of two products for each entry, after which the entries are divided by
//! their greatest common divisor.

ghost use Rattle.std.specs.Prelude.{◌≡◌, ◌<◌, ◌^◌, length, map, IfOk, reverse};
ghost use Rattle.hp_rows.specs.Arithmetic.{over};
ghost use Rattle.hp_rows.specs.Lines.{pivot, subtract, gcd_from, clear, reduce, LinesFit};
ghost use Rattle.hp_rows.specs.Told.{Tells};

use crate::division::{absolute, over, signed_by};
use hp_num::{List, Whole, Wide, gcd};
use std::alloc::{AllocError, Global};

/// Why nothing was made: a number that is too wide, or want of memory.
#[derive(Clone, Copy)]
pub enum Fail {
    Wide(Wide),
    Memory,
}

/// `d*row - c*g`, entry by entry.
fn subtract(
    alloc: Global,
    d: Whole,
    row: &[Whole],
    c: Whole,
    g: &[Whole],
) -> Result<List<Whole>, Fail>
    requires { length g.now ≡ length row.now }
    ensures told { Tells result (subtract d row.now c g.now) }
    ensures size { IfOk result (λ out. length out ≡ length row.now) }
{
    let mut out = List::new(alloc);
    for at in 0..row.len() {
        match Whole::mul_sub(d, row[at], c, g[at]) {
            Ok(entry) => {
                if out.push(entry).is_err() {
                    return Err(Fail::Memory);
                }
            }
            Err(wide) => return Err(Fail::Wide(wide)),
        }
    }
    Ok(out)
}

/// The greatest common divisor of all entries.
fn common(line: &[Whole]) -> u128
    ensures value { result ≡ gcd_from 0 line.now }
    ensures narrow { result < 2 ^ 127 }
{
    let mut divisor = 0;
    for at in 0..line.len() {
        divisor = gcd(divisor, line[at].magnitude());
    }
    divisor
}

/// The first place that is not 0, or the length where there is none.
pub fn pivot(line: &[Whole]) -> usize
    ensures { result ≡ pivot line.now }
{
    for at in 0..line.len() {
        if line[at].value() != 0 {
            return at;
        }
    }
    line.len()
}

/// Each entry over the divisor.
fn divide(alloc: Global, line: &[Whole], divisor: u128) -> Result<List<Whole>, AllocError>
    requires { divisor < 2 ^ 127 }
    ensures each { IfOk result (λ out. out ≡ map (λ z. over z divisor) line.now) }
    ensures size { IfOk result (λ out. length out ≡ length line.now) }
{
    let mut out = List::new(alloc);
    for at in 0..line.len() {
        out.push(over(line[at], divisor))?;
    }
    Ok(out)
}

/// The row, cleared at the pivot of `g`.
fn clear(alloc: Global, g: &[Whole], row: List<Whole>) -> Result<List<Whole>, Fail>
    requires size { length g.now ≡ length row }
    requires pivot { pivot g.now < length g.now }
    ensures told { Tells result (clear g.now row) }
    ensures size { IfOk result (λ line. length line ≡ length row) }
{
    let at = pivot(g);
    let w = row.as_slice()[at];
    if w.value() == 0 {
        return Ok(row);
    }
    let v = g[at];
    let h = gcd(v.magnitude(), w.magnitude());
    let d = over(absolute(v), h);
    let c = signed_by(v, over(w, h));
    let line = match subtract(alloc, d, row.as_slice(), c, g) {
        Ok(line) => line,
        Err(fail) => return Err(fail),
    };
    let divisor = common(line.as_slice());
    match divide(alloc, line.as_slice(), divisor) {
        Ok(out) => Ok(out),
        Err(_) => Err(Fail::Memory),
    }
}

/// The row after the lines of a chain, the first of which stands first: cleared at the pivot of each in turn.
pub fn reduce(alloc: Global, lines: &[List<Whole>], row: List<Whole>) -> Result<List<Whole>, Fail>
    requires { LinesFit (length row) lines.now }
    ensures { Tells result (reduce (reverse lines.now) row) }
{
    let mut line = row;
    for at in 0..lines.len() {
        line = match clear(alloc, lines[at].as_slice(), line) {
            Ok(line) => line,
            Err(fail) => return Err(fail),
        };
    }
    Ok(line)
}
