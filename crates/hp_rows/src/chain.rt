//! The rows of a chain, each reduced by the lines of those before it, and the point of a chain that is given.
//!
//! A chain lists row numbers from 0 in the order in which the rows are taken as equations, and its lines have the same
//! order.

ghost use Rattle.std.specs.Prelude.{◌≡◌, ◌<◌, ◌+◌, ◌∷◌, ◌++◌, Ok, length, reverse, drop, IfOk};
ghost use Rattle.hp_rows.specs.Rows.{AreWide, IsChain};
ghost use Rattle.hp_rows.specs.Lines.{equations, line_of, marks};
ghost use Rattle.hp_rows.specs.Points.{HavePivots};
ghost use Rattle.hp_rows.specs.Answers.{Locates};
ghost use Rattle.hp_rows.specs.inner.Steps.{IsNext};

use crate::answer::{Located, Place, Strain};
use crate::coordinates::point_of;
use crate::line::{Fail, pivot, reduce};
use crate::row::Row;
use hp_num::{List, Whole, Wide};
use std::alloc::{AllocError, Global};

/// What the row after a chain comes to: its reduced line, which has a pivot among the columns, a contradiction of the
/// rows where it has no coefficients, a strain, or want of memory.
#[derive(Drop)]
pub enum Next {
    Line(List<Whole>),
    Contradiction(List<Whole>),
    Strain(Strain),
    Memory,
}

/// The point of a chain, which need not make the other rows hold. Where the reduced line of one of its rows has no
/// coefficients, the chain has no point, and that line contradicts the rows.
pub fn locate(alloc: Global, width: usize, rows: &[Row], chain: &[usize]) -> Located
    requires wide { AreWide width rows.now }
    requires chain { IsChain rows.now (reverse chain.now) }
    ensures { Locates rows.now width chain.now result }
{
    let mut lines = List::new(alloc);
    for at in 0..chain.len() {
        let (before, _) = chain.split_at(at);
        match next_line(alloc, width, rows, before, lines.as_slice(), chain[at]) {
            Next::Line(line) => {
                if lines.push(line).is_err() {
                    return Located::Memory;
                }
            }
            Next::Contradiction(times) => return Located::Contradiction(times),
            Next::Strain(strain) => return Located::Strain(strain),
            Next::Memory => return Located::Memory,
        }
    }
    match point_of(alloc, width, lines.as_slice()) {
        Ok(point) => Located::Point(point),
        Err(Fail::Memory) => Located::Memory,
        Err(Fail::Wide(wide)) => match strain(alloc, chain, Place::Point, wide) {
            Ok(strain) => Located::Strain(strain),
            Err(_) => Located::Memory,
        },
    }
}

/// The reduced line of row `at`, which can follow the chain.
pub fn next_line(
    alloc: Global,
    width: usize,
    rows: &[Row],
    chain: &[usize],
    lines: &[List<Whole>],
    at: usize,
) -> Next
    requires wide { AreWide width rows.now }
    requires next { IsChain rows.now (at ∷ reverse chain.now) }
    requires made { equations rows.now (reverse chain.now) ≡ Ok (reverse lines.now) }
    requires pivots { HavePivots width (reverse lines.now) }
    ensures { IsNext rows.now width chain.now lines.now at result }
{
    let row = match line_of(alloc, rows, at) {
        Ok(row) => row,
        Err(_) => return Next::Memory,
    };
    let line = match reduce(alloc, lines, row) {
        Ok(line) => line,
        Err(Fail::Memory) => return Next::Memory,
        Err(Fail::Wide(wide)) => {
            return match strain(alloc, chain, Place::Line(at), wide) {
                Ok(strain) => Next::Strain(strain),
                Err(_) => Next::Memory,
            };
        }
    };
    if pivot(line.as_slice()) < width {
        return Next::Line(line);
    }
    match times_of(alloc, width, line.as_slice()) {
        Ok(times) => Next::Contradiction(times),
        Err(_) => Next::Memory,
    }
}

/// The line of a row, before any elimination.
fn line_of(alloc: Global, rows: &[Row], at: usize) -> Result<List<Whole>, AllocError>
    requires { at < length rows.now }
    ensures { IfOk result (λ line. line ≡ line_of rows.now at) }
{
    row_line(alloc, &rows[at], rows.len(), at)
}

/// The coefficients, the bound, and `count` multipliers, 1 at `at` and else 0.
fn row_line(alloc: Global, row: &Row, count: usize, at: usize) -> Result<List<Whole>, AllocError>
    ensures { IfOk result (λ line. line ≡ row.now.coefs ++ row.now.bound ∷ marks count at) }
{
    let mut line = List::from_slice(alloc, row.coefs.as_slice())?;
    line.push(row.bound)?;
    for other in 0..count {
        line.push(if other == at {
            Whole::new(1)
        } else {
            Whole::new(0)
        })?;
    }
    Ok(line)
}

/// The multipliers of a line.
fn times_of(alloc: Global, width: usize, line: &[Whole]) -> Result<List<Whole>, AllocError>
    requires { width < length line.now }
    ensures { IfOk result (λ times. times ≡ drop (width + 1) line.now) }
{
    let (_, times) = line.split_at(width + 1);
    List::from_slice(alloc, times)
}

/// The strain on a copy of the chain.
pub fn strain(
    alloc: Global,
    chain: &[usize],
    place: Place,
    wide: Wide,
) -> Result<Strain, AllocError>
    ensures { IfOk result (λ strain. (strain.chain ≡ chain.now) × (strain.place ≡ place) × (strain.wide ≡ wide)) }
{
    Ok(Strain {
        chain: List::from_slice(alloc, chain)?,
        place,
        wide,
    })
}
