//! Reading a term, token by token.
//! The steps that handle terms stay out of line: each call clears the large locals of its own frame alone.

ghost use Rattle.std.specs.Prelude.{◌≡◌, Option, Some, None};
ghost use Rattle.hp_body.specs.Moves.{Moves};
ghost use Rattle.hp_body.specs.Machine.{close, next_argument, at_word, number_goes, factor_goes, end_goes, plus_goes, minus_goes, star_goes, slash_goes, null_goes, open_goes, close_goes, comma_goes};

use crate::build::call_term;
use crate::stack::Stack;
use crate::state::{Frame, Front, Mode};
use crate::stop::Stop;
use hp_grammar::same;
use hp_text::Kind;
use hp_tree::Term;
use sqlite_items::Boxed;
use std::alloc::Global;

/// Behind `)`, which ends a group or the arguments of a function.
fn shut(term: Term, mode: &mut Mode, frames: &mut Stack<Frame>) -> Result<(), Stop>
    ensures { Moves (mode.new, frames.new) result (close term frames.old) }
{
    match frames.pop() {
        None => Err(Stop::Refused),
        Some(Frame::Group(front, number)) => {
            *mode = Mode::Done(front, number, term);
            Ok(())
        }
        Some(Frame::Call(front, number, func, mut args)) => {
            args.push(term)?;
            *mode = Mode::Done(front, number, call_term(func, args));
            Ok(())
        }
    }
}

/// Behind `,`, which ends an argument.
fn next(term: Term, mode: &mut Mode, frames: &mut Stack<Frame>) -> Result<(), Stop>
    ensures { Moves (mode.new, frames.new) result (next_argument term frames.old) }
{
    match frames.pop() {
        Some(Frame::Call(front, number, func, mut args)) => {
            args.push(term)?;
            frames.push(Frame::Call(front, number, func, args))?;
            *mode = Mode::Part(Front::Nothing);
            Ok(())
        }
        _ => Err(Stop::Refused),
    }
}

#[inline(never)]
#[tactic(auto, unfolding(crate::specs::Machine::plus_goes))]
fn plus_sign(alloc: Global, mode: &mut Mode, frames: &mut Stack<Frame>) -> Result<(), Stop>
    ensures { Moves (mode.new, frames.new) result (plus_goes mode.old frames.old) }
{
    let _frames = frames;
    let term = mode.taken().end(alloc)?;
    *mode = Mode::Part(Front::Sum(Boxed::new(alloc, term)?));
    Ok(())
}

#[inline(never)]
#[tactic(auto, unfolding(crate::specs::Machine::minus_goes))]
fn minus_sign(alloc: Global, mode: &mut Mode, frames: &mut Stack<Frame>) -> Result<(), Stop>
    ensures { Moves (mode.new, frames.new) result (minus_goes mode.old frames.old) }
{
    let _frames = frames;
    mode.minus(alloc)
}

#[inline(never)]
#[tactic(auto, unfolding(crate::specs::Machine::star_goes))]
fn star_sign(mode: &mut Mode, frames: &mut Stack<Frame>) -> Result<(), Stop>
    ensures { Moves (mode.new, frames.new) result (star_goes mode.old frames.old) }
{
    let _frames = frames;
    mode.star()
}

#[inline(never)]
#[tactic(auto, unfolding(crate::specs::Machine::slash_goes))]
fn slash_sign(mode: &mut Mode, frames: &mut Stack<Frame>) -> Result<(), Stop>
    ensures { Moves (mode.new, frames.new) result (slash_goes mode.old frames.old) }
{
    let _frames = frames;
    mode.slash()
}

#[inline(never)]
#[tactic(auto, unfolding(crate::specs::Machine::null_goes))]
fn null_word(mode: &mut Mode, frames: &mut Stack<Frame>) -> Result<(), Stop>
    ensures { Moves (mode.new, frames.new) result (null_goes mode.old frames.old) }
{
    let _frames = frames;
    mode.null()
}

#[inline(never)]
#[tactic(auto, unfolding(crate::specs::Machine::open_goes))]
fn open_sign(alloc: Global, mode: &mut Mode, frames: &mut Stack<Frame>) -> Result<(), Stop>
    ensures { Moves (mode.new, frames.new) result (open_goes mode.old frames.old) }
{
    let frame = mode.taken().open(alloc)?;
    frames.push(frame)?;
    Ok(())
}

#[inline(never)]
#[tactic(auto, unfolding(crate::specs::Machine::close_goes))]
fn close_sign(alloc: Global, mode: &mut Mode, frames: &mut Stack<Frame>) -> Result<(), Stop>
    ensures { Moves (mode.new, frames.new) result (close_goes mode.old frames.old) }
{
    let term = mode.taken().end(alloc)?;
    shut(term, mode, frames)
}

#[inline(never)]
#[tactic(auto, unfolding(crate::specs::Machine::comma_goes))]
fn comma_sign(alloc: Global, mode: &mut Mode, frames: &mut Stack<Frame>) -> Result<(), Stop>
    ensures { Moves (mode.new, frames.new) result (comma_goes mode.old frames.old) }
{
    let term = mode.taken().end(alloc)?;
    next(term, mode, frames)
}

/// Behind `)` and `,`.
#[tactic(auto, unfolding(crate::specs::Machine::end_goes))]
fn end_word(
    alloc: Global,
    kind: Kind,
    mode: &mut Mode,
    frames: &mut Stack<Frame>,
) -> Result<(), Stop>
    ensures { Moves (mode.new, frames.new) result (end_goes kind mode.old frames.old) }
{
    if same(kind, Kind::CloseRound) {
        close_sign(alloc, mode, frames)
    } else if same(kind, Kind::Comma) {
        comma_sign(alloc, mode, frames)
    } else {
        Err(Stop::Refused)
    }
}

/// Behind `null` and `(`, and what ends.
#[tactic(auto, unfolding(crate::specs::Machine::factor_goes))]
fn factor_word(
    alloc: Global,
    kind: Kind,
    mode: &mut Mode,
    frames: &mut Stack<Frame>,
) -> Result<(), Stop>
    ensures { Moves (mode.new, frames.new) result (factor_goes kind mode.old frames.old) }
{
    if same(kind, Kind::Null) {
        null_word(mode, frames)
    } else if same(kind, Kind::OpenRound) {
        open_sign(alloc, mode, frames)
    } else {
        end_word(alloc, kind, mode, frames)
    }
}

/// Behind `*` and `/`, and what is no number.
#[tactic(auto, unfolding(crate::specs::Machine::number_goes))]
fn number_word(
    alloc: Global,
    kind: Kind,
    mode: &mut Mode,
    frames: &mut Stack<Frame>,
) -> Result<(), Stop>
    ensures { Moves (mode.new, frames.new) result (number_goes kind mode.old frames.old) }
{
    if same(kind, Kind::Star) {
        star_sign(mode, frames)
    } else if same(kind, Kind::Slash) {
        slash_sign(mode, frames)
    } else {
        factor_word(alloc, kind, mode, frames)
    }
}

/// A term goes behind one more word or sign: what stands in the innermost parenthesis, and the open ones.
#[tactic(auto, unfolding(crate::specs::Machine::at_word))]
pub(crate) fn word(
    alloc: Global,
    kind: Kind,
    mode: &mut Mode,
    frames: &mut Stack<Frame>,
) -> Result<(), Stop>
    ensures { Moves (mode.new, frames.new) result (at_word kind mode.old frames.old) }
{
    if same(kind, Kind::Plus) {
        plus_sign(alloc, mode, frames)
    } else if same(kind, Kind::Minus) {
        minus_sign(alloc, mode, frames)
    } else {
        number_word(alloc, kind, mode, frames)
    }
}
