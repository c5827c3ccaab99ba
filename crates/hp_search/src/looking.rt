//! What shows at a place of the tree: a model, a line to split, or a leaf.
//!
//! The literals of the path are decided together with those of all lines of one literal. Where these conflict, the path is
//! decided alone, and the lines of the conflict are those to split first. Where some components of these literals have no
//! answer, the lines of one literal that belong to them are left out, and the values leave such a line false, which is
//! split first: so the path grows by lines of these components alone. Where a component of the path has no answer either,
//! the strain is one over the choices of the path that belong to it.
ghost use Rattle.std.specs.Prelude.{◌≡◌, ◌≤◌, [], IfOk, IfErr, IfSome, length};
ghost use Rattle.std.specs.List.{All};
ghost use Rattle.hp_tree.specs.Limits.{most_lines};
ghost use Rattle.hp_lit.specs.Fit.{IsFit};
ghost use Rattle.hp_path.specs.Decided.{AreOfChain, AreValuesFor};
ghost use Rattle.hp_search.specs.Lines.{AreFit};
ghost use Rattle.hp_search.specs.Search.{IsCauseAt, IsCauseWithin, IsModelAt, IsPartOf, IsStrainedAt, Looks, Sees, SeesChain, sum_strain};
ghost use Rattle.hp_search.specs.inner.Singles.{AreSinglesOf};

use crate::ahead::{Ahead, decide_ahead};
use crate::known::are_contrary;
use crate::literals::{lits_of, push_lits};
use crate::parts::part_at;
use crate::plan::Plan;
use crate::searching::SearchErr;
use crate::spread::{mentioned, push_apart};
use crate::truth::{Verdict, first_false, wide_at};
use hp_descent::{At, DescentErr, Form, Place, RowStrain, Strain};
use hp_leaf::LeafProof;
use hp_lit::{Choice, Line, Lit, Valuation};
use hp_num::{List, Wide};
use hp_path::{Decision, Quick, component_of_last, decide, decide_quickly};
use hp_tree::Sort;
use std::alloc::{AllocError, Global};

/// The most literals that are decided together.
const MOST_ROWS: usize = 100_000;

/// A choice that names no literal.
const NOWHERE: Choice = Choice { line: 0, lit: 0 };

/// What shows at a place: values that make every line true, with their chain where they were to have one; a line that some
/// values leave false; or a leaf.
#[derive(Drop)]
pub enum Seen {
    Model {
        values: Valuation,
        chain: Option<List<u32>>,
    },
    Split(u32),
    Leaf(LeafProof),
}

/// What shows at a place at a quick look.
#[derive(Drop)]
enum QuickLook {
    Seen(Seen),
    /// Literals of the path, by their numbers, over which a number of the descent is too wide.
    Strained(List<u32>),
    /// The sum of this literal is too wide at the values that were found, and no line is false.
    Wide(Choice),
}

/// The last literal of each line that has one: for a clause, one of the last atom of its head, or of its guard where the
/// head has no atom.
fn last_choices(alloc: Global, lines: &[Line]) -> Result<List<Choice>, AllocError>
    requires lines { length lines.now ≤ most_lines }
    ensures { IfOk result (λ last. length last ≤ length lines.now) }
{
    let mut last = List::new(alloc);
    for (at, line) in lines.iter().enumerate() {
        match u32::try_from(line.lits.len()) {
            Ok(0) | Err(_) => {}
            Ok(lit) => last.push(Choice {
                line: at as u32 + 1,
                lit,
            })?,
        }
    }
    Ok(last)
}

/// The values that these literals have, where this shows quickly and they make every line true.
fn values_of(
    alloc: Global,
    sorts: &[Sort],
    lines: &[Line],
    lits: &[Lit],
    plan: &Plan,
) -> Result<Option<Valuation>, AllocError>
    requires fit { All (λ line. AreFit sorts.now line.lits) lines.now }
    requires lines { length lines.now ≤ most_lines }
    requires lits { All (IsFit sorts.now) lits.now }
    ensures { IfOk result (λ guess. IfSome guess (λ v. IsModelAt sorts.now lines.now [] v)) }
{
    if lits.len() > MOST_ROWS {
        return Ok(None);
    }
    if are_contrary(alloc, sorts.len(), lits)? {
        return Ok(None);
    }
    match decide_quickly(alloc, sorts, lits)? {
        Quick::Leaf(_) | Quick::Unknown(_) => Ok(None),
        Quick::Values(values) => match first_false(lines, &values, &[], plan)? {
            Verdict::AllTrue => Ok(Some(values)),
            Verdict::False(_) | Verdict::Wide { .. } => Ok(None),
        },
    }
}

/// Values that make every line true, where the last literals of all lines can be true at once and this shows quickly. So
/// clauses with guards need no tree where their heads agree.
fn guess_model(
    alloc: Global,
    sorts: &[Sort],
    lines: &[Line],
    plan: &Plan,
) -> Result<Option<Valuation>, AllocError>
    requires fit { All (λ line. AreFit sorts.now line.lits) lines.now }
    requires lines { length lines.now ≤ most_lines }
    ensures { IfOk result (λ guess. IfSome guess (λ v. IsModelAt sorts.now lines.now [] v)) }
{
    let last = last_choices(alloc, lines)?;
    let lits = lits_of(alloc, lines, last.as_slice())?;
    values_of(alloc, sorts, lines, lits.as_slice(), plan)
}

/// Values that make every line true, where those do that keep apart the names that no line of one literal is over and this
/// shows quickly. So functions of names that nothing fixes need no tree.
fn guess_spread(
    alloc: Global,
    sorts: &[Sort],
    lines: &[Line],
    singles: &[Choice],
    plan: &Plan,
) -> Result<Option<Valuation>, AllocError>
    requires fit { All (λ line. AreFit sorts.now line.lits) lines.now }
    requires lines { length lines.now ≤ most_lines }
    ensures { IfOk result (λ guess. IfSome guess (λ v. IsModelAt sorts.now lines.now [] v)) }
{
    let mut lits = lits_of(alloc, lines, singles)?;
    let marks = mentioned(alloc, sorts.len(), lits.as_slice())?;
    push_apart(alloc, sorts, marks.as_slice(), &mut lits)?;
    values_of(alloc, sorts, lines, lits.as_slice(), plan)
}

/// Values that make every line true, where one of the two guesses finds them.
pub fn guess(
    alloc: Global,
    sorts: &[Sort],
    lines: &[Line],
    singles: &[Choice],
    plan: &Plan,
) -> Result<Option<Valuation>, AllocError>
    requires fit { All (λ line. AreFit sorts.now line.lits) lines.now }
    requires lines { length lines.now ≤ most_lines }
    ensures { IfOk result (λ guess. IfSome guess (λ v. IsModelAt sorts.now lines.now [] v)) }
{
    match guess_model(alloc, sorts, lines, plan)? {
        Some(values) => Ok(Some(values)),
        None => guess_spread(alloc, sorts, lines, singles, plan),
    }
}

/// Looks for a line that values leave false, without chains.
fn look_quickly(
    alloc: Global,
    sorts: &[Sort],
    lines: &[Line],
    singles: &[Choice],
    path: &[Choice],
    plan: &Plan,
) -> Result<QuickLook, AllocError>
    requires fit { All (λ line. AreFit sorts.now line.lits) lines.now }
    requires lines { length lines.now ≤ most_lines }
    requires singles { AreSinglesOf lines.now singles.now }
    requires path { length path.now ≤ most_lines }
    ensures { IfOk result (Looks sorts.now lines.now path.now) }
{
    match decide_ahead(alloc, sorts, lines, singles, path)? {
        Ahead::Strained(places) => Ok(QuickLook::Strained(places)),
        Ahead::Leaf(proof) => Ok(QuickLook::Seen(Seen::Leaf(proof))),
        Ahead::Values { values, suspects } => {
            match first_false(lines, &values, suspects.as_slice(), plan)? {
                Verdict::AllTrue => Ok(QuickLook::Seen(Seen::Model {
                    values,
                    chain: None,
                })),
                Verdict::False(line) => Ok(QuickLook::Seen(Seen::Split(line))),
                Verdict::Wide { choice, .. } => Ok(QuickLook::Wide(choice)),
            }
        }
    }
}

/// A strain over the literals of a path, or want of memory.
fn strained(alloc: Global, path: &[Choice], row: RowStrain) -> SearchErr
    ensures { Rattle.hp_search.specs.Search.IsStrainedAs path.now row result }
{
    match List::from_slice(alloc, path) {
        Ok(path) => SearchErr::Strain(Strain {
            place: Place::Path(path),
            row,
        }),
        Err(_) => SearchErr::Memory,
    }
}

/// Decides the literals of the path by dimension descent, and looks for a line that the values of its chain leave false.
fn look_exactly(
    alloc: Global,
    sorts: &[Sort],
    lines: &[Line],
    path: &[Choice],
    plan: &Plan,
) -> Result<Seen, SearchErr>
    requires fit { All (λ line. AreFit sorts.now line.lits) lines.now }
    requires lines { length lines.now ≤ most_lines }
    requires path { length path.now ≤ most_lines }
    ensures seen { IfOk result (SeesChain sorts.now lines.now path.now) }
    ensures strained { IfErr result (IsCauseAt lines.now path.now) }
{
    let lits = lits_of(alloc, lines, path)?;
    match decide(alloc, sorts, lits.as_slice()) {
        Err(DescentErr::Memory) => Err(SearchErr::Memory),
        Err(DescentErr::Strain(row)) => Err(strained(alloc, path, row)),
        Ok(Decision::Leaf(proof)) => Ok(Seen::Leaf(proof)),
        Ok(Decision::Values { values, chain }) => match first_false(lines, &values, &[], plan)? {
            Verdict::AllTrue => Ok(Seen::Model {
                values,
                chain: Some(chain),
            }),
            Verdict::False(line) => Ok(Seen::Split(line)),
            Verdict::Wide { choice, wide } => {
                Err(strained(alloc, path, strain_of(chain, choice, wide)))
            }
        },
    }
}

/// As `look_exactly`, with a chain only where `exact`.
fn look_wholly(
    alloc: Global,
    sorts: &[Sort],
    lines: &[Line],
    path: &[Choice],
    plan: &Plan,
    exact: bool,
) -> Result<Seen, SearchErr>
    requires fit { All (λ line. AreFit sorts.now line.lits) lines.now }
    requires lines { length lines.now ≤ most_lines }
    requires path { length path.now ≤ most_lines }
    ensures seen { IfOk result (Sees sorts.now lines.now path.now exact) }
    ensures strained { IfErr result (IsCauseAt lines.now path.now) }
{
    if exact {
        return look_exactly(alloc, sorts, lines, path, plan);
    }
    match look_exactly(alloc, sorts, lines, path, plan)? {
        Seen::Model { values, .. } => Ok(Seen::Model {
            values,
            chain: None,
        }),
        Seen::Split(line) => Ok(Seen::Split(line)),
        Seen::Leaf(proof) => Ok(Seen::Leaf(proof)),
    }
}

/// A strain over the literals of a path, with the sum of the literal of this choice at the values that are found, where
/// there is one.
fn strain_over(
    alloc: Global,
    sorts: &[Sort],
    lines: &[Line],
    path: &[Choice],
    choice: Choice,
) -> Result<Option<RowStrain>, AllocError>
    requires fit { All (λ line. AreFit sorts.now line.lits) lines.now }
    requires path { length path.now ≤ most_lines }
    ensures { IfOk result (λ strain. IfSome strain (IsStrainedAt lines.now path.now)) }
{
    let lits = lits_of(alloc, lines, path)?;
    match decide(alloc, sorts, lits.as_slice()) {
        Err(DescentErr::Memory) => Err(AllocError),
        Err(DescentErr::Strain(row)) => Ok(Some(row)),
        Ok(Decision::Leaf(_)) => Ok(None),
        Ok(Decision::Values { values, chain }) => match wide_at(lines, &values, choice) {
            Some(wide) => Ok(Some(strain_of(chain, choice, wide))),
            None => Ok(None),
        },
    }
}

/// The strain of the sum of the literal of this choice.
fn strain_of(chain: List<u32>, choice: Choice, wide: Wide) -> RowStrain
    ensures { result ≡ sum_strain chain choice wide }
{
    RowStrain {
        chain,
        at: At::Literal {
            line: choice.line,
            lit: choice.lit,
        },
        form: Form::Sum,
        wide,
    }
}

/// The strain over some choices of the path, with the sum of the literal of this choice at the values that are found,
/// where there is one; else as `look_wholly`.
fn look_within(
    alloc: Global,
    sorts: &[Sort],
    lines: &[Line],
    path: &[Choice],
    part: List<Choice>,
    choice: Choice,
    plan: &Plan,
    exact: bool,
) -> Result<Seen, SearchErr>
    requires fit { All (λ line. AreFit sorts.now line.lits) lines.now }
    requires lines { length lines.now ≤ most_lines }
    requires path { length path.now ≤ most_lines }
    requires part { IsPartOf part path.now }
    ensures seen { IfOk result (Sees sorts.now lines.now path.now exact) }
    ensures strained { IfErr result (IsCauseWithin lines.now path.now) }
{
    match strain_over(alloc, sorts, lines, part.as_slice(), choice)? {
        Some(row) => Err(SearchErr::Strain(Strain {
            place: Place::Path(part),
            row,
        })),
        None => look_wholly(alloc, sorts, lines, path, plan, exact),
    }
}

/// The choices of the path that share a name, directly or through others, with the literal of this choice.
fn part_beside(
    alloc: Global,
    sorts: &[Sort],
    lines: &[Line],
    path: &[Choice],
    choice: Choice,
) -> Result<List<Choice>, AllocError>
    requires fit { All (λ line. AreFit sorts.now line.lits) lines.now }
    requires path { length path.now ≤ most_lines }
    ensures { IfOk result (λ part. IsPartOf part path.now) }
{
    let mut lits = lits_of(alloc, lines, path)?;
    push_lits(alloc, lines, &[choice], &mut lits)?;
    let places = component_of_last(alloc, sorts, lits.as_slice())?;
    part_at(alloc, path, places.as_slice())
}

/// Decides the literals of the path, and looks for a line that the values found leave false. Where `exact`, the values of
/// a model are those of a chain of the path. A strain is one over some choices of the path.
pub fn look_by_engines(
    alloc: Global,
    sorts: &[Sort],
    lines: &[Line],
    singles: &[Choice],
    path: &[Choice],
    plan: &Plan,
    exact: bool,
) -> Result<Seen, SearchErr>
    requires fit { All (λ line. AreFit sorts.now line.lits) lines.now }
    requires lines { length lines.now ≤ most_lines }
    requires singles { AreSinglesOf lines.now singles.now }
    requires path { length path.now ≤ most_lines }
    ensures seen { IfOk result (Sees sorts.now lines.now path.now exact) }
    ensures strained { IfErr result (IsCauseWithin lines.now path.now) }
{
    match look_quickly(alloc, sorts, lines, singles, path, plan)? {
        QuickLook::Seen(Seen::Split(line)) => Ok(Seen::Split(line)),
        QuickLook::Seen(Seen::Leaf(proof)) => Ok(Seen::Leaf(proof)),
        QuickLook::Seen(Seen::Model { values, chain }) => {
            if exact {
                look_wholly(alloc, sorts, lines, path, plan, exact)
            } else {
                Ok(Seen::Model { values, chain })
            }
        }
        QuickLook::Strained(places) => {
            let part = part_at(alloc, path, places.as_slice())?;
            look_within(alloc, sorts, lines, path, part, NOWHERE, plan, exact)
        }
        QuickLook::Wide(choice) => {
            let part = part_beside(alloc, sorts, lines, path, choice)?;
            look_within(alloc, sorts, lines, path, part, choice, plan, exact)
        }
    }
}
