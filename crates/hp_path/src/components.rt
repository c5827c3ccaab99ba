//! The literals over fractions of a path, decided by components: literals that share no name, directly or through
//! others, are decided apart from each other.
//!
//! Each component goes to the simplex. A component for which that gives up is named, so that it hides no contradiction of
//! another one, or goes to the descent first, whose time may double with each literal: over literals that share no name
//! it would take the product of the times of the components, and here it takes their sum.
ghost use Rattle.std.specs.Prelude.{◌≡◌, ◌≤◌, ◌<◌, ◌+◌, IfOk, length, map, false, replicate};
ghost use Rattle.std.specs.List.{All, filter};
ghost use Rattle.hp_tree.specs.Limits.{most_rows};
ghost use Rattle.hp_lit.specs.declared.literal.Lit.TheVariants.{Num};
ghost use Rattle.hp_descent.specs.Columns.{AreNumFit};
ghost use Rattle.hp_leaf.specs.Renumbered.{Stands};
ghost use Rattle.hp_lit.specs.Fit.{IsFit, IsNumOver};
ghost use Rattle.hp_path.specs.Kinds.{num_lits};
ghost use Rattle.hp_path.specs.Components.{has_label, places_with};
ghost use Rattle.hp_path.specs.Parted.{AreParts, num_places};
ghost use Rattle.hp_path.specs.inner.Chains.{AreLabelled};
ghost use Rattle.hp_path.specs.inner.Sides.{AreOfLabel, DecidesNums, DecidesPart, Tells};

use crate::chains::{Labelled, with_labels};
use crate::labels::first_label;
use crate::parting::Parts;
use crate::placing::push_values;
use hp_descent::{DescentErr, NumAnswer};
use hp_leaf::renumber_shares;
use hp_lit::{Lit, NameValue, NumLit, Share};
use hp_num::List;
use hp_simplex::{Attempt, attempt, decide};
use hp_tree::Sort;
use std::alloc::{AllocError, Global};

/// Whether a component for which the simplex gives up goes to the descent.
#[derive(Clone, Copy)]
pub enum Pace {
    Quick,
    Patient,
}

/// What is found of literals over fractions, in the numbers that literals have along the path.
#[derive(Drop)]
pub enum Apart {
    /// Values of names that make all of them true.
    Point(List<NameValue>),
    /// A combination of them.
    Farkas(List<Share>),
    /// The components without an answer, each as the numbers of its literals, which rise.
    Unknown(List<List<u32>>),
}

/// What is found of the literals of one label.
#[derive(Drop)]
enum Side {
    Point(List<NameValue>),
    Farkas(List<Share>),
    Unknown(List<u32>),
}

/// The literals of one label, in their order, and the number of each along the path.
#[derive(Drop)]
pub struct Component {
    pub nums: List<NumLit>,
    pub places: List<u32>,
}

/// The literals of a label.
pub fn component_of(
    alloc: Global,
    labelled: &Labelled,
    label: usize,
    parts: &Parts,
) -> Result<Component, AllocError>
    requires labelled { AreLabelled parts.now.nums labelled.now }
    requires label { label < length labelled.now.labels + 1 }
    requires places { length parts.now.num_places ≡ length parts.now.nums }
    ensures nums { IfOk result (λ c. c.nums ≡ filter (has_label labelled.now.labels label) parts.now.nums) }
    ensures places { IfOk result (λ c. c.places ≡ places_with labelled.now.labels label parts.now.nums parts.now.num_places) }
{
    let mut nums = List::new(alloc);
    let mut places = List::new(alloc);
    let mut at = *labelled.chains.firsts.get(label);
    'chain: while at < parts.nums.len() {
        nums.push(parts.nums.get(at).copy(alloc)?)?;
        places.push(*parts.num_places.get(at))?;
        at = *labelled.chains.nexts.get(at);
    }
    Ok(Component { nums, places })
}

/// For each label up to this one, that it isn't decided yet.
fn none_done(alloc: Global, last: usize) -> Result<List<bool>, AllocError>
    ensures { IfOk result (λ done. done ≡ replicate (last + 1) false) }
{
    let mut done = List::new(alloc);
    for _at in 0..last {
        done.push(false)?;
    }
    done.push(false)?;
    Ok(done)
}

/// The answer of the simplex, or of the descent where that gives up and there is time for it.
fn answer_at(alloc: Global, pace: Pace, nums: &[NumLit]) -> Result<Attempt, AllocError>
    requires { AreNumFit nums.now }
    ensures { IfOk result (Tells pace nums.now) }
{
    match pace {
        Pace::Quick => attempt(alloc, nums),
        Pace::Patient => match decide(alloc, nums) {
            Ok(NumAnswer::Point(values)) => Ok(Attempt::Point(values)),
            Ok(NumAnswer::Farkas(shares)) => Ok(Attempt::Farkas(shares)),
            Err(DescentErr::Strain(_)) => Ok(Attempt::Unknown),
            Err(DescentErr::Memory) => Err(AllocError),
        },
    }
}

/// As `decide_nums`, for the literals of a label.
fn decide_component(
    alloc: Global,
    sorts: &[Sort],
    lits: &[Lit],
    parts: &Parts,
    labelled: &Labelled,
    label: usize,
    pace: Pace,
) -> Result<Side, AllocError>
    requires over { All (IsNumOver sorts.now) parts.now.nums }
    requires few { length parts.now.nums ≤ most_rows }
    requires stand { Stands lits.now (map Num parts.now.nums) parts.now.num_places }
    requires labelled { AreLabelled parts.now.nums labelled.now }
    requires label { label < length labelled.now.labels + 1 }
    ensures decided { IfOk result (DecidesPart sorts.now pace lits.now parts.now labelled.now.labels label) }
    ensures names { IfOk result (AreOfLabel labelled.now.labels label) }
{
    let component = component_of(alloc, labelled, label, parts)?;
    match answer_at(alloc, pace, component.nums.as_slice())? {
        Attempt::Point(values) => Ok(Side::Point(values)),
        Attempt::Farkas(shares) => {
            let shares = renumber_shares(alloc, component.places.as_slice(), shares.as_slice())?;
            Ok(Side::Farkas(shares))
        }
        Attempt::Unknown => Ok(Side::Unknown(component.places)),
    }
}

/// As `decide_nums`, with a label for each name, and the literals of each label.
fn decide_apart(
    alloc: Global,
    sorts: &[Sort],
    lits: &[Lit],
    parts: &Parts,
    labelled: &Labelled,
    pace: Pace,
) -> Result<Apart, AllocError>
    requires over { All (IsNumOver sorts.now) parts.now.nums }
    requires few { length parts.now.nums ≤ most_rows }
    requires stand { Stands lits.now (map Num parts.now.nums) parts.now.num_places }
    requires labelled { AreLabelled parts.now.nums labelled.now }
    ensures { IfOk result (DecidesNums sorts.now pace lits.now parts.now.nums parts.now.num_places) }
{
    let mut done = none_done(alloc, labelled.labels.len())?;
    let mut values = List::new(alloc);
    let mut unknown = List::new(alloc);
    for lit in parts.nums.as_slice() {
        let label = first_label(&labelled.labels, lit.parts.as_slice());
        if !*done.get(label) {
            done.set(label, true);
            match decide_component(alloc, sorts, lits, parts, labelled, label, pace)? {
                Side::Point(more) => push_values(&mut values, more.as_slice())?,
                Side::Unknown(places) => unknown.push(places)?,
                Side::Farkas(shares) => return Ok(Apart::Farkas(shares)),
            }
        }
    }
    if unknown.len() == 0 {
        Ok(Apart::Point(values))
    } else {
        Ok(Apart::Unknown(unknown))
    }
}

/// Values that make the literals over fractions true, or a combination of them in the numbers that literals have along
/// the path. Components without an answer are named where no component has a combination.
pub fn decide_nums(
    alloc: Global,
    sorts: &[Sort],
    lits: &[Lit],
    parts: &Parts,
    pace: Pace,
) -> Result<Apart, AllocError>
    requires fit { All (IsFit sorts.now) lits.now }
    requires few { length lits.now ≤ most_rows }
    requires parts { AreParts lits.now parts.now }
    ensures { IfOk result (DecidesNums sorts.now pace lits.now (num_lits lits.now) (num_places 1 lits.now)) }
{
    let labelled = with_labels(alloc, sorts, parts.nums.as_slice())?;
    decide_apart(alloc, sorts, lits, parts, &labelled, pace)
}
