//! How far a body is read, and the steps from one token to the next.
//! The steps are those of the machine of bodies in `specs/`. Each enum has a drop of its own, which keeps the proofs of its callers short.

ghost use Rattle.std.specs.Prelude.{◌≡◌, [], ◌∷◌, ◌++◌, OnOk, Option, Some, None};
ghost use Rattle.hp_body.specs.Given.{Gives};
ghost use Rattle.hp_body.specs.Moves.{Moves, behind};
ghost use Rattle.hp_body.specs.BodyMachine.{begun as begun_at, outermost as outermost_of, atom_end, at_and, at_arrow, at_or, last, fresh, at_relation, and_goes, arrow_goes, or_goes, false_goes, head_goes, other_goes, body_word, body_step, body_end};
ghost use Rattle.hp_grammar.specs.Bodies.{relation as relation_of_kind};
ghost use Rattle.hp_body.specs.declared.body.Body.TheVariants.{Reading, Closed};
ghost use Rattle.hp_body.specs.declared.body.Side.TheVariants.{Left};
ghost use Rattle.hp_body.specs.declared.state.Front.TheVariants.{Nothing};
ghost use Rattle.hp_body.specs.declared.state.Mode.TheVariants.{Part};

use crate::stack::Stack;
use crate::state::{Frame, Front, Mode};
use crate::stop::Stop;
use crate::term::word;
use hp_grammar::{Symbol, same};
use hp_num::List;
use hp_text::Kind;
use hp_tree::{Atom, Cmp, Term};
use std::alloc::Global;
use std::mem;

/// Where the present atom stands in its body.
pub enum Place {
    /// At the head of the body.
    First,
    /// Behind `&`: these atoms are a guard.
    Guard(List<Atom>),
    /// Behind the guard and `->`.
    Bare(List<Atom>),
    /// Behind `|`: the guard, if one stands there, and the atoms of the head.
    Head(List<Atom>, List<Atom>),
}

/// On which side of its relation an atom is read.
pub enum Side {
    Left,
    /// The left side and the relation.
    Right(Term, Cmp),
}

/// How far a body is read.
pub enum Body {
    Reading(Place, Side, Mode, Stack<Frame>),
    /// Behind `false`, with the guard.
    Closed(List<Atom>),
}

/// The guard and the head of a body.
#[derive(Drop)]
pub struct Sides {
    pub guard: List<Atom>,
    pub head: List<Atom>,
}

impl Drop for Place {
    fn drop(self) {
        match self {
            Place::First => {}
            Place::Guard(_atoms) => {}
            Place::Bare(_guard) => {}
            Place::Head(_guard, _atoms) => {}
        }
    }
}

impl Drop for Side {
    fn drop(self) {
        match self {
            Side::Left => {}
            Side::Right(_left, _cmp) => {}
        }
    }
}

impl Drop for Body {
    fn drop(self) {
        match self {
            Body::Reading(_place, _side, _mode, _frames) => {}
            Body::Closed(_guard) => {}
        }
    }
}

/// One atom, with room for so many.
fn alone(alloc: Global, atom: Atom, room: usize) -> Result<List<Atom>, Stop>
    ensures { Gives (λ bs. bs) result (Some (atom ∷ [])) }
{
    let mut atoms = Vec::with_capacity(alloc, room)?;
    atoms.push(atom)?;
    Ok(List::from_vec(atoms))
}

/// One atom more.
fn with(mut atoms: List<Atom>, atom: Atom) -> Result<List<Atom>, Stop>
    ensures { Gives (λ bs. bs) result (Some (atoms ++ atom ∷ [])) }
{
    atoms.push(atom)?;
    Ok(atoms)
}

impl Place {
    /// Behind the atom and `&`.
    fn guarded(self, alloc: Global, atom: Atom) -> Result<Place, Stop>
        ensures { Gives (λ p. p) result (at_and self atom) }
    {
        match self {
            Place::First => Ok(Place::Guard(alone(alloc, atom, 2)?)),
            Place::Guard(atoms) => Ok(Place::Guard(with(atoms, atom)?)),
            _ => Err(Stop::Refused),
        }
    }

    /// Behind the atom and `->`.
    fn implied(self, alloc: Global, atom: Atom) -> Result<Place, Stop>
        ensures { Gives (λ p. p) result (at_arrow self atom) }
    {
        match self {
            Place::First => Ok(Place::Bare(alone(alloc, atom, 1)?)),
            Place::Guard(atoms) => Ok(Place::Bare(with(atoms, atom)?)),
            _ => Err(Stop::Refused),
        }
    }

    /// Behind the atom and `|`.
    fn headed(self, alloc: Global, atom: Atom) -> Result<Place, Stop>
        ensures { Gives (λ p. p) result (at_or self atom) }
    {
        match self {
            Place::First => Ok(Place::Head(List::new(alloc), alone(alloc, atom, 2)?)),
            Place::Bare(guard) => Ok(Place::Head(guard, alone(alloc, atom, 2)?)),
            Place::Head(guard, atoms) => Ok(Place::Head(guard, with(atoms, atom)?)),
            _ => Err(Stop::Refused),
        }
    }

    /// The body that ends with the atom.
    fn closed(self, alloc: Global, atom: Atom) -> Result<Sides, Stop>
        ensures { Gives (λ s. (s.guard, s.head)) result (last self atom) }
    {
        match self {
            Place::First => {
                let head = alone(alloc, atom, 1)?;
                Ok(Sides {
                    guard: List::new(alloc),
                    head,
                })
            }
            Place::Bare(guard) => {
                let head = alone(alloc, atom, 1)?;
                Ok(Sides { guard, head })
            }
            Place::Head(guard, atoms) => {
                let head = with(atoms, atom)?;
                Ok(Sides { guard, head })
            }
            _ => Err(Stop::Refused),
        }
    }

    /// The guard of a body that `false` closes, where no atom has begun.
    #[inline(never)]
    #[tactic(auto, unfolding(crate::specs::BodyMachine::false_goes))]
    fn emptied(
        self,
        alloc: Global,
        side: &Side,
        mode: &Mode,
        frames: &mut Stack<Frame>,
    ) -> Result<List<Atom>, Stop>
        ensures { Gives (λ g. Closed g) result (false_goes self side.now mode.now frames.old) }
    {
        match self {
            Place::First => side.emptied(mode, frames, List::new(alloc)),
            Place::Bare(guard) => side.emptied(mode, frames, guard),
            _ => Err(Stop::Refused),
        }
    }

    /// A body begins, or its head behind a guard.
    pub fn begun(self, alloc: Global) -> Body
        ensures { result ≡ begun_at self }
    {
        Body::Reading(
            self,
            Side::Left,
            Mode::Part(Front::Nothing),
            Stack::new(alloc),
        )
    }
}

/// The term that ends here, no parenthesis being open. The next one may begin.
fn outermost(alloc: Global, mode: &mut Mode, frames: &mut Stack<Frame>) -> Result<Term, Stop>
    ensures term { Gives (λ t. t) result (outermost_of mode.old frames.old) }
    ensures mode { OnOk result (mode.new ≡ Part Nothing) }
    ensures frames { OnOk result (frames.new ≡ []) }
{
    if frames.is_empty() {
        mode.taken().end(alloc)
    } else {
        Err(Stop::Refused)
    }
}

impl Side {
    /// The atom that ends here. The next one may begin.
    fn atom(self, alloc: Global, mode: &mut Mode, frames: &mut Stack<Frame>) -> Result<Atom, Stop>
        ensures atom { Gives (λ a. a) result (atom_end self mode.old frames.old) }
        ensures mode { OnOk result (mode.new ≡ Part Nothing) }
        ensures frames { OnOk result (frames.new ≡ []) }
    {
        match self {
            Side::Left => Err(Stop::Refused),
            Side::Right(left, cmp) => {
                let right = outermost(alloc, mode, frames)?;
                Ok(Atom { left, cmp, right })
            }
        }
    }

    /// This guard behind `false`, where no token of an atom is read.
    fn emptied(
        &self,
        mode: &Mode,
        frames: &mut Stack<Frame>,
        guard: List<Atom>,
    ) -> Result<List<Atom>, Stop>
        ensures { Gives (λ g. Closed g) result (fresh self.now mode.now frames.old guard) }
    {
        match self {
            Side::Left => match frames.pop() {
                Some(_) => Err(Stop::Refused),
                None => {
                    if mode.is_fresh() {
                        Ok(guard)
                    } else {
                        Err(Stop::Refused)
                    }
                }
            },
            Side::Right(_left, _cmp) => Err(Stop::Refused),
        }
    }

    /// Behind the relation, which stands once in an atom.
    #[inline(never)]
    fn related(
        self,
        alloc: Global,
        cmp: Cmp,
        mode: &mut Mode,
        frames: &mut Stack<Frame>,
    ) -> Result<Side, Stop>
        ensures { Gives (λ s. (s, (mode.new, frames.new))) result (at_relation self mode.old frames.old cmp) }
    {
        match self {
            Side::Left => {
                let left = outermost(alloc, mode, frames)?;
                Ok(Side::Right(left, cmp))
            }
            Side::Right(_left, _cmp) => Err(Stop::Refused),
        }
    }
}

#[inline(never)]
#[tactic(auto, unfolding(crate::specs::BodyMachine::and_goes))]
fn and_sign(
    alloc: Global,
    place: &mut Place,
    side: &mut Side,
    mode: &mut Mode,
    frames: &mut Stack<Frame>,
) -> Result<(), Stop>
    ensures { Moves (Reading place.new side.new mode.new frames.new) result (and_goes place.old side.old mode.old frames.old) }
{
    let atom = mem::replace(side, Side::Left).atom(alloc, mode, frames)?;
    let next = mem::replace(place, Place::First).guarded(alloc, atom)?;
    *place = next;
    Ok(())
}

#[inline(never)]
#[tactic(auto, unfolding(crate::specs::BodyMachine::arrow_goes))]
fn arrow_sign(
    alloc: Global,
    place: &mut Place,
    side: &mut Side,
    mode: &mut Mode,
    frames: &mut Stack<Frame>,
) -> Result<(), Stop>
    ensures { Moves (Reading place.new side.new mode.new frames.new) result (arrow_goes place.old side.old mode.old frames.old) }
{
    let atom = mem::replace(side, Side::Left).atom(alloc, mode, frames)?;
    let next = mem::replace(place, Place::First).implied(alloc, atom)?;
    *place = next;
    Ok(())
}

#[inline(never)]
#[tactic(auto, unfolding(crate::specs::BodyMachine::or_goes))]
fn or_sign(
    alloc: Global,
    place: &mut Place,
    side: &mut Side,
    mode: &mut Mode,
    frames: &mut Stack<Frame>,
) -> Result<(), Stop>
    ensures { Moves (Reading place.new side.new mode.new frames.new) result (or_goes place.old side.old mode.old frames.old) }
{
    let atom = mem::replace(side, Side::Left).atom(alloc, mode, frames)?;
    let next = mem::replace(place, Place::First).headed(alloc, atom)?;
    *place = next;
    Ok(())
}

/// The relation that the sign is.
#[tactic(auto, unfolding(hp_grammar::specs::Bodies::relation))]
fn relation(kind: Kind) -> Option<Cmp>
    ensures { result ≡ relation_of_kind kind }
{
    if same(kind, Kind::LessEq) {
        Some(Cmp::Le)
    } else if same(kind, Kind::Less) {
        Some(Cmp::Lt)
    } else if same(kind, Kind::Equal) {
        Some(Cmp::Eq)
    } else if same(kind, Kind::NotEqual) {
        Some(Cmp::Ne)
    } else if same(kind, Kind::GreaterEq) {
        Some(Cmp::Ge)
    } else if same(kind, Kind::Greater) {
        Some(Cmp::Gt)
    } else {
        None
    }
}

/// Behind a relation, and inside a term.
#[tactic(auto, unfolding(crate::specs::BodyMachine::other_goes))]
fn other_word(
    alloc: Global,
    kind: Kind,
    place: &Place,
    side: &mut Side,
    mode: &mut Mode,
    frames: &mut Stack<Frame>,
) -> Result<(), Stop>
    ensures { Moves (Reading place.now side.new mode.new frames.new) result (other_goes kind place.now side.old mode.old frames.old) }
{
    let _place = place;
    match relation(kind) {
        Some(cmp) => {
            let next = mem::replace(side, Side::Left).related(alloc, cmp, mode, frames)?;
            *side = next;
            Ok(())
        }
        None => word(alloc, kind, mode, frames),
    }
}

/// Behind `|` and `false`, and inside an atom. What is given is the guard of a body that `false` closes.
#[tactic(auto, unfolding(crate::specs::BodyMachine::head_goes))]
fn head_word(
    alloc: Global,
    kind: Kind,
    place: &mut Place,
    side: &mut Side,
    mode: &mut Mode,
    frames: &mut Stack<Frame>,
) -> Result<Option<List<Atom>>, Stop>
    ensures { Gives (λ g. behind g place.new side.new mode.new frames.new) result (head_goes kind place.old side.old mode.old frames.old) }
{
    if same(kind, Kind::Or) {
        or_sign(alloc, place, side, mode, frames)?;
        Ok(None)
    } else if same(kind, Kind::False) {
        let place = mem::replace(place, Place::First);
        let guard = place.emptied(alloc, side, mode, frames)?;
        Ok(Some(guard))
    } else {
        other_word(alloc, kind, place, side, mode, frames)?;
        Ok(None)
    }
}

/// The body behind one more word or sign.
#[tactic(auto, unfolding(crate::specs::BodyMachine::body_word))]
fn body_word_step(
    alloc: Global,
    kind: Kind,
    place: &mut Place,
    side: &mut Side,
    mode: &mut Mode,
    frames: &mut Stack<Frame>,
) -> Result<Option<List<Atom>>, Stop>
    ensures { Gives (λ g. behind g place.new side.new mode.new frames.new) result (body_word kind place.old side.old mode.old frames.old) }
{
    if same(kind, Kind::And) {
        and_sign(alloc, place, side, mode, frames)?;
        Ok(None)
    } else if same(kind, Kind::Arrow) {
        arrow_sign(alloc, place, side, mode, frames)?;
        Ok(None)
    } else {
        head_word(alloc, kind, place, side, mode, frames)
    }
}

fn reading_step(
    alloc: Global,
    symbol: Symbol,
    place: &mut Place,
    side: &mut Side,
    mode: &mut Mode,
    frames: &mut Stack<Frame>,
) -> Result<Option<List<Atom>>, Stop>
    ensures { Gives (λ g. behind g place.new side.new mode.new frames.new) result (body_step (Reading place.old side.old mode.old frames.old) symbol) }
{
    match symbol {
        Symbol::Word(kind) => body_word_step(alloc, kind, place, side, mode, frames),
        Symbol::Name(name) => {
            mode.name(name)?;
            Ok(None)
        }
        Symbol::Numeral(n) => {
            mode.numeral(n)?;
            Ok(None)
        }
    }
}

impl Body {
    /// The body goes behind one more token, in its place, since a body is too large to be moved at each token.
    #[inline(never)]
    pub fn step(&mut self, alloc: Global, symbol: Symbol) -> Result<(), Stop>
        ensures { Moves self.new result (body_step self.old symbol) }
    {
        let closed = match self {
            Body::Reading(place, side, mode, frames) => {
                reading_step(alloc, symbol, place, side, mode, frames)?
            }
            Body::Closed(_guard) => return Err(Stop::Refused),
        };
        match closed {
            None => Ok(()),
            Some(guard) => {
                self.close(guard);
                Ok(())
            }
        }
    }

    /// `false` closes the body.
    #[inline(never)]
    fn close(&mut self, guard: List<Atom>)
        ensures { self.new ≡ Closed guard }
    {
        *self = Body::Closed(guard);
    }

    /// The guard and the head, where a body may end here.
    pub fn end(&mut self, alloc: Global) -> Result<Sides, Stop>
        ensures { Gives (λ s. (s.guard, s.head)) result (body_end self.old) }
    {
        match self {
            Body::Reading(place, side, mode, frames) => {
                let atom = mem::replace(side, Side::Left).atom(alloc, mode, frames)?;
                mem::replace(place, Place::First).closed(alloc, atom)
            }
            Body::Closed(guard) => {
                let guard = mem::replace(guard, List::new(alloc));
                let head = List::new(alloc);
                Ok(Sides { guard, head })
            }
        }
    }
}
