//! The point of the lines of a chain, the left side of a row at a point, and the values that a point gives.
//!
//! A point has one fraction for each column, in the order of the columns.

ghost use Rattle.std.specs.Prelude.{◌≡◌, ◌≢◌, ◌<◌, ◌-◌, pos, length, reverse, IfOk};
ghost use Rattle.hp_math.specs.Rational.{whole};
ghost use Rattle.hp_rows.specs.Lines.{pivot};
ghost use Rattle.hp_rows.specs.Points.{at_point, coordinate, zeros, left_of, point_of, values_of, PointFit};
ghost use Rattle.hp_rows.specs.Told.{Tells};
ghost use Rattle.hp_rows.specs.Exact.{AreQuotients};

use crate::fractions::product;
use crate::line::{Fail, pivot};
use hp_num::{Frac, List, Whole, Wide};
use std::alloc::{AllocError, Global};

/// The coordinate at the pivot of `g`: its bound less the products in column order, over the entry at the pivot.
fn coordinate(g: &[Whole], point: &[Frac]) -> Result<Frac, Wide>
    requires size { length point.now < length g.now }
    requires pivot { pivot g.now < length g.now }
    ensures { result ≡ coordinate g.now point.now }
{
    let mut rest = Frac::whole(g[point.len()]);
    for at in 0..point.len() {
        let part = product(g[at], point[at])?;
        rest = Frac::sub(rest, part)?;
    }
    Frac::div(rest, Frac::whole(g[pivot(g)]))
}

/// The point that is 0 at each column.
fn zeros(alloc: Global, width: usize) -> Result<List<Frac>, AllocError>
    ensures { IfOk result (λ point. point ≡ zeros width) }
{
    let mut point = List::new(alloc);
    for _at in 0..width {
        point.push(Frac::whole(Whole::new(0)))?;
    }
    Ok(point)
}

/// The sum of coefficient times value, in column order. The error is the first operation that passes 2^127 - 1.
pub fn left_side(coefs: &[Whole], point: &[Frac]) -> Result<Frac, Wide>
    requires { length coefs.now ≡ length point.now }
    ensures { result ≡ left_of (whole (pos 0)) coefs.now point.now }
{
    let mut total = Frac::whole(Whole::new(0));
    for at in 0..point.len() {
        let part = product(coefs[at], point[at])?;
        total = Frac::add(total, part)?;
    }
    Ok(total)
}

/// The point of the lines of a chain, the first of which stands first: 0 at columns without a pivot, the others from
/// the last line to the first.
pub fn point_of(alloc: Global, width: usize, lines: &[List<Whole>]) -> Result<List<Frac>, Fail>
    requires { PointFit width lines.now }
    ensures { Tells result (point_of width (reverse lines.now)) }
{
    let mut point = match zeros(alloc, width) {
        Ok(point) => point,
        Err(_) => return Err(Fail::Memory),
    };
    let mut left = lines.len();
    while left > 0 {
        left -= 1;
        let line = lines[left].as_slice();
        match coordinate(line, point.as_slice()) {
            Ok(value) => point.set(pivot(line), value),
            Err(wide) => return Err(Fail::Wide(wide)),
        }
    }
    Ok(point)
}

/// The coordinates before the last one, each over the last, in their order. With homogeneous rows, whose last column is
/// the number that scales the bounds, these are the values of the other columns. The error is the first operation that
/// passes 2^127 - 1, or want of memory. It asks that the last coordinate isn't 0.
pub fn values(alloc: Global, point: &[Frac]) -> Result<List<Frac>, Fail>
    requires { at_point point.now (length point.now - 1) ≢ whole (pos 0) }
    ensures told { Tells result (values_of (length point.now - 1) point.now) }
    ensures exact { IfOk result (λ values. AreQuotients (length point.now - 1) point.now values) }
{
    let mut out = List::new(alloc);
    if point.len() == 0 {
        return Ok(out);
    }
    let last = point.len() - 1;
    for at in 0..last {
        match Frac::div(point[at], point[last]) {
            Ok(value) => {
                if out.push(value).is_err() {
                    return Err(Fail::Memory);
                }
            }
            Err(wide) => return Err(Fail::Wide(wide)),
        }
    }
    Ok(out)
}
