//! Lines that leave one case: equalities that the lines of one literal and those with one case left lead to, one after the
//! other, until a line has no case left.
//!
//! Only the order in which lines are split hangs on what is found, so nothing is proved of it.
use crate::bounds::{Bounds, judge_by_bounds};
use crate::classes::{Classes, Standing, classes_of, join, judge, way};
use crate::gaps::{gap_of, link_of};
use crate::literals::lits_of;
use hp_lit::{Choice, Line, Lit};
use hp_num::List;
use std::alloc::{AllocError, Global};

/// The most times that all lines are gone over.
const MOST_ROUNDS: usize = 1_000;

/// What is known, with the choices that it comes from: an equality's number is that of its choice, from 1.
#[derive(Drop)]
struct Known {
    classes: Classes,
    choices: List<Choice>,
}

/// Where going over lines led to.
#[derive(Drop)]
pub enum Followed {
    /// Lines to split one after the other: each has one case left after those before it, and the last has none.
    Lines(List<u32>),
    /// The classes of names where no line has one case left.
    Classes(Classes),
}

/// What is left of a line.
#[derive(Clone, Copy)]
enum Left {
    /// No case.
    Nothing,
    /// One case: the literal at this index, from 0.
    One(usize),
    /// More, or one that is true.
    More,
}

/// Where one round over the lines led to, or one line.
#[derive(Clone, Copy)]
enum Round {
    /// A line without a case, by its index from 0.
    Closed(usize),
    Grown,
    Still,
}

/// What classes make of a literal that may be no difference.
fn judge_lit(classes: &Classes, lit: &Lit) -> Standing {
    match gap_of(lit) {
        Some(gap) => judge(classes, gap),
        None => Standing::Open,
    }
}

/// What classes leave of a line.
fn left_of(classes: &Classes, lits: &[Lit]) -> Left {
    let mut left = Left::Nothing;
    for (at, lit) in lits.iter().enumerate() {
        match judge_lit(classes, lit) {
            Standing::True => return Left::More,
            Standing::False => {}
            Standing::Open => match left {
                Left::Nothing => left = Left::One(at),
                Left::One(_) | Left::More => return Left::More,
            },
        }
    }
    left
}

/// What classes make of a literal, and bounds where these leave it open.
fn judge_whole(classes: &Classes, bounds: &Bounds, lit: &Lit) -> Standing {
    match judge_lit(classes, lit) {
        Standing::Open => judge_by_bounds(bounds, classes, lit),
        Standing::True => Standing::True,
        Standing::False => Standing::False,
    }
}

/// How many of its cases classes and bounds leave of a line, 0 also where one of them is true.
pub fn cases_left(classes: &Classes, bounds: &Bounds, lits: &[Lit]) -> usize {
    let mut count = 0usize;
    for lit in lits {
        match judge_whole(classes, bounds, lit) {
            Standing::True => return 0,
            Standing::False => {}
            Standing::Open => count = count.saturating_add(1),
        }
    }
    count
}

/// Adds the case that is left of a line to what is known, where it is an equality. False where it is none.
fn take(known: &mut Known, line: &Line, number: u32, at: usize) -> Result<bool, AllocError> {
    let Some(lit) = line.lits.as_slice().get(at) else {
        return Ok(false);
    };
    let Some(link) = link_of(lit) else {
        return Ok(false);
    };
    let (Ok(lit), Ok(by)) = (
        u32::try_from(at.saturating_add(1)),
        u32::try_from(known.choices.len().saturating_add(1)),
    ) else {
        return Ok(false);
    };
    known.choices.push(Choice { line: number, lit })?;
    join(&mut known.classes, link, by);
    Ok(true)
}

/// The index that comes after so many steps, forth from the first one or back from the last.
fn index_after(step: usize, count: usize, is_back: bool) -> usize {
    if is_back {
        count.saturating_sub(step).saturating_sub(1)
    } else {
        step
    }
}

/// What one line adds to what is known.
fn go_to(known: &mut Known, line: &Line, at: usize) -> Result<Round, AllocError> {
    match left_of(&known.classes, line.lits.as_slice()) {
        Left::More => Ok(Round::Still),
        Left::Nothing => Ok(Round::Closed(at)),
        Left::One(lit) => {
            if take(known, line, number_of(at), lit)? {
                Ok(Round::Grown)
            } else {
                Ok(Round::Still)
            }
        }
    }
}

/// Goes over all lines once, forth or back.
fn go_over(known: &mut Known, lines: &[Line], is_back: bool) -> Result<Round, AllocError> {
    let mut round = Round::Still;
    for step in 0..lines.len() {
        let at = index_after(step, lines.len(), is_back);
        let Some(line) = lines.get(at) else {
            return Ok(round);
        };
        match go_to(known, line, at)? {
            Round::Closed(at) => return Ok(Round::Closed(at)),
            Round::Grown => round = Round::Grown,
            Round::Still => {}
        }
    }
    Ok(round)
}

/// The number of the line at an index.
fn number_of(at: usize) -> u32 {
    match u32::try_from(at.saturating_add(1)) {
        Ok(number) => number,
        Err(_) => 0,
    }
}

/// Marks the equalities that make literals of a line false.
fn mark_line(
    alloc: Global,
    classes: &Classes,
    lits: &[Lit],
    marks: &mut List<bool>,
) -> Result<(), AllocError> {
    for lit in lits {
        match gap_of(lit) {
            None => {}
            Some(gap) => match judge(classes, gap) {
                Standing::True | Standing::Open => {}
                Standing::False => {
                    let hops = way(alloc, classes, gap.left, gap.right)?;
                    for hop in hops.as_slice() {
                        mark(marks, hop.by);
                    }
                }
            },
        }
    }
    Ok(())
}

/// Marks this number.
fn mark(marks: &mut List<bool>, number: u32) {
    let at = number as usize;
    if at < marks.len() {
        marks.set(at, true);
    }
}

/// No marks for the numbers up to this one.
fn no_marks(alloc: Global, last: usize) -> Result<List<bool>, AllocError> {
    let mut marks = List::new(alloc);
    marks.push(false)?;
    for _ in 0..last {
        marks.push(false)?;
    }
    Ok(marks)
}

/// The lines whose equalities close a line, after the first `own` choices, and this line.
fn lines_for(
    alloc: Global,
    known: &Known,
    lines: &[Line],
    own: usize,
    closed: usize,
) -> Result<List<u32>, AllocError> {
    let count = known.choices.len();
    let mut marks = no_marks(alloc, count)?;
    match lines.get(closed) {
        Some(line) => mark_line(alloc, &known.classes, line.lits.as_slice(), &mut marks)?,
        None => {}
    }
    for done in 0..count {
        let at = count - 1 - done;
        if own <= at && is_marked(marks.as_slice(), at) {
            let line = known.choices.get(at).line as usize;
            match lines.get(line.saturating_sub(1)) {
                Some(line) => mark_line(alloc, &known.classes, line.lits.as_slice(), &mut marks)?,
                None => {}
            }
        }
    }
    let mut needed = List::new(alloc);
    for at in own..count {
        if is_marked(marks.as_slice(), at) {
            needed.push(known.choices.get(at).line)?;
        }
    }
    needed.push(number_of(closed))?;
    Ok(needed)
}

/// Whether the choice at this index, from 0, has a mark at its number.
fn is_marked(marks: &[bool], at: usize) -> bool {
    match marks.get(at.saturating_add(1)) {
        Some(true) => true,
        _ => false,
    }
}

/// Goes over the lines, from a place on, until one has no case left or nothing new is known.
pub fn follow(
    alloc: Global,
    names: usize,
    lines: &[Line],
    path: &[Choice],
) -> Result<Followed, AllocError> {
    let lits = lits_of(alloc, lines, path)?;
    let mut known = Known {
        classes: classes_of(alloc, names, lits.as_slice())?,
        choices: List::from_slice(alloc, path)?,
    };
    for round in 0..MOST_ROUNDS {
        match go_over(&mut known, lines, round % 2 == 1)? {
            Round::Closed(at) => {
                let needed = lines_for(alloc, &known, lines, path.len(), at)?;
                return Ok(Followed::Lines(needed));
            }
            Round::Grown => {}
            Round::Still => return Ok(Followed::Classes(known.classes)),
        }
    }
    Ok(Followed::Classes(known.classes))
}
