//! Dimension descent: the chain is a stack of rows that are taken as equations, and the rows are tested at its point.
//!
//! A row that the point breaks is put on the chain, and the rows are taken anew at the new point; where the last row of
//! the chain comes up itself, it holds as an equation and is taken off. The descent ends with a point at which every
//! row was tested, or with a reduced row that has no coefficients, whose multipliers contradict the rows.

ghost use Rattle.std.specs.Prelude.{◌≡◌, ◌<◌, [], ◌∷◌, ◌++◌, length, reverse, false};
ghost use Rattle.hp_rows.specs.Rows.{AreWide, Breaks, row_at};
ghost use Rattle.hp_rows.specs.Points.{at_point, PointFit};
ghost use Rattle.hp_rows.specs.Told.{TestTells};
ghost use Rattle.hp_rows.specs.Answers.{Answers};
ghost use Rattle.hp_rows.specs.inner.Steps.{IsPushed, IsStrained, IsStateOf, StepTells, first_is};

use crate::answer::{Answer, Place, Strain};
use crate::chain::{Next, next_line, strain};
use crate::coordinates::{left_side, point_of};
use crate::fractions::is_over;
use crate::line::Fail;
use crate::row::Row;
use hp_num::{Frac, List, Whole, Wide};
use std::alloc::Global;

/// A chain with the reduced line of each of its rows, and the point of the chain `found`, which meets the rows of the
/// chain as equations. The rows below `at` hold at the point.
#[derive(Drop)]
pub struct State {
    chain: List<usize>,
    lines: List<List<Whole>>,
    found: List<usize>,
    point: List<Frac>,
    at: usize,
}

/// What a step of the descent came to.
#[derive(Drop)]
pub enum Step {
    On,
    Contradiction(List<Whole>),
    Strain(Strain),
    Memory,
}

/// Decides the rows over the fractions, each with `width` coefficients: a point, a contradiction, a strain, or want of
/// memory. The time may be exponential in the number of rows.
pub fn descend(alloc: Global, width: usize, rows: &[Row]) -> Answer
    requires { AreWide width rows.now }
    ensures { Answers rows.now width result }
{
    let point = match point_of(alloc, width, &[]) {
        Ok(point) => point,
        Err(_) => return Answer::Memory,
    };
    let mut state = State {
        chain: List::new(alloc),
        lines: List::new(alloc),
        found: List::new(alloc),
        point,
        at: 0,
    };
    while state.at < rows.len() {
        match advance(alloc, width, rows, &mut state) {
            Step::On => {}
            Step::Contradiction(times) => return Answer::Contradiction(times),
            Step::Strain(strain) => return Answer::Strain(strain),
            Step::Memory => return Answer::Memory,
        }
    }
    Answer::Point {
        chain: state.found,
        point: state.point,
    }
}

/// One row more, or the last row off the chain, or a row put on it.
fn advance(alloc: Global, width: usize, rows: &[Row], state: &mut State) -> Step
    requires wide { AreWide width rows.now }
    requires state { IsStateOf rows.now width state.now }
    requires more { state.now.at < length rows.now }
    ensures { StepTells rows.now width state.old state.new result }
{
    if is_last(state.chain.as_slice(), state.at) {
        state.chain.pop();
        state.lines.pop();
        state.at += 1;
        return Step::On;
    }
    match is_broken(&rows[state.at], state.point.as_slice()) {
        Ok(false) => {
            state.at += 1;
            Step::On
        }
        Ok(true) => extend(alloc, width, rows, state),
        Err(wide) => strained(alloc, state.found.as_slice(), Place::Sum(state.at), wide),
    }
}

/// Puts the row that the point breaks on the chain, or ends with the contradiction that it gives.
fn extend(alloc: Global, width: usize, rows: &[Row], state: &mut State) -> Step
    requires wide { AreWide width rows.now }
    requires state { IsStateOf rows.now width state.now }
    requires more { state.now.at < length rows.now }
    requires other { first_is state.now.at (reverse state.now.chain) ≡ false }
    requires broken { Breaks (row_at rows.now state.now.at) (at_point state.now.point) }
    ensures { StepTells rows.now width state.old state.new result }
{
    match next_line(
        alloc,
        width,
        rows,
        state.chain.as_slice(),
        state.lines.as_slice(),
        state.at,
    ) {
        Next::Line(line) => push(alloc, width, state, line),
        Next::Contradiction(times) => Step::Contradiction(times),
        Next::Strain(strain) => Step::Strain(strain),
        Next::Memory => Step::Memory,
    }
}

/// Puts row `at` with its reduced line on the chain, and moves to the point of that, where all rows are taken anew.
fn push(alloc: Global, width: usize, state: &mut State, line: List<Whole>) -> Step
    requires { PointFit width (state.now.lines ++ line ∷ []) }
    ensures { IsPushed width line state.old state.new result }
{
    if state.chain.push(state.at).is_err() {
        return Step::Memory;
    }
    if state.lines.push(line).is_err() {
        return Step::Memory;
    }
    let point = match point_of(alloc, width, state.lines.as_slice()) {
        Ok(point) => point,
        Err(Fail::Wide(wide)) => {
            return strained(alloc, state.chain.as_slice(), Place::Point, wide);
        }
        Err(Fail::Memory) => return Step::Memory,
    };
    match List::from_slice(alloc, state.chain.as_slice()) {
        Ok(found) => {
            state.found = found;
            state.point = point;
            state.at = 0;
            Step::On
        }
        Err(_) => Step::Memory,
    }
}

/// Whether the point breaks the row, or the first operation of its left side that is too wide.
fn is_broken(row: &Row, point: &[Frac]) -> Result<bool, Wide>
    requires { length row.now.coefs ≡ length point.now }
    ensures { TestTells row.now point.now result }
{
    let sum = left_side(row.coefs.as_slice(), point)?;
    Ok(is_over(sum, row.bound))
}

/// Whether the row is the last one of the chain.
fn is_last(chain: &[usize], at: usize) -> bool
    ensures { result ≡ first_is at (reverse chain.now) }
{
    match chain.last() {
        Some(last) => *last == at,
        None => false,
    }
}

/// The strain as a step.
fn strained(alloc: Global, chain: &[usize], place: Place, wide: Wide) -> Step
    ensures { IsStrained chain.now place wide result }
{
    match strain(alloc, chain, place, wide) {
        Ok(strain) => Step::Strain(strain),
        Err(_) => Step::Memory,
    }
}
