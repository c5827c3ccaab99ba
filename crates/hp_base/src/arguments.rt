//! The arguments of applications: what a term is where it stands as one.

ghost use Rattle.std.specs.Prelude.{◌≡◌, ℕ, ◌≤◌, ◌<◌, ◌^◌, length, Ok, IfOk, IfSome, MatchOption};
ghost use Rattle.hp_tree.specs.declared.problem.Sort.TheVariants.{Num, Idx};
ghost use Rattle.hp_terms.specs.Weight.{IsSmallOffset, largest_offset, weight};
ghost use Rattle.hp_index.specs.Forms.{index_of};
ghost use Rattle.hp_defs.specs.declared.names.Ground.{Ground};
ghost use Rattle.hp_defs.specs.Made.{IsSmallArg};
ghost use Rattle.hp_base.specs.Making.{Begins, Makes};
ghost use Rattle.hp_base.specs.Arguments.{argument_of, form_argument, is_alone, lin_argument, named_sum, pointer_argument};

use crate::defining::sum;
use crate::limit::computed;
use hp_defs::Ground;
use hp_index::{IndexForm, index_form, pointer};
use hp_linear::linear_form;
use hp_lit::{Arg, GroundErr, Lin, LinPart, Name};
use hp_names::NameIndex;
use hp_num::Frac;
use hp_tree::{Sort, Term};
use std::alloc::Global;

/// Whether a sum is a name alone: one copy of it and nothing else.
fn is_alone(part: LinPart, rest: Frac) -> bool
    ensures { result ≡ is_alone part rest }
{
    part.coef == Frac::new(1, 1) && rest.is_zero()
}

/// The argument that a sum is where that needs no definition.
fn plain_argument(lin: &Lin) -> Option<Arg>
    ensures made { (item : ℕ) (g : Ground) → MatchOption result (lin_argument item lin.now g ≡ named_sum item lin.now g) (λ arg. lin_argument item lin.now g ≡ Ok (arg, g)) }
    ensures small { IfSome result IsSmallArg }
{
    let parts = lin.parts.as_slice();
    if parts.len() == 0 {
        Some(Arg::Number(lin.rest))
    } else if parts.len() == 1 && is_alone(parts[0], lin.rest) {
        Some(Arg::Named(parts[0].name))
    } else {
        None
    }
}

/// The argument that a sum is: its number, its name alone, or the name of its definition.
#[tactic(auto, using(crate::proofs::Making::begins_same, crate::proofs::Making::begins_trans))]
fn lin_argument(alloc: Global, g: &mut Ground, item: u32, lin: &Lin) -> Result<Arg, GroundErr>
    ensures made { Makes (lin_argument item lin.now) g.old g.new result }
    ensures kept { Begins g.old g.new }
    ensures small { IfOk result IsSmallArg }
{
    match plain_argument(lin) {
        Some(arg) => Ok(arg),
        None => {
            let name = sum(alloc, g, item, lin)?;
            Ok(Arg::Named(name))
        }
    }
}

/// The argument of a num term.
#[tactic(auto, using(crate::proofs::Making::begins_same, crate::proofs::Making::begins_trans))]
fn num_argument(alloc: Global, g: &mut Ground, item: u32, term: &Term) -> Result<Arg, GroundErr>
    ensures made { Makes (argument_of item Num term.now) g.old g.new result }
    ensures kept { Begins g.old g.new }
    ensures small { IfOk result IsSmallArg }
{
    let lin = computed(item, linear_form(alloc, g.names.words(), term))?;
    lin_argument(alloc, g, item, &lin)
}

/// The form of an idx term whose numbers are not too large.
fn small_form(index: &NameIndex, term: &Term) -> IndexForm
    requires few { length index.now < 2 ^ 28 }
    requires light { weight term.now ≤ largest_offset }
    ensures form { result ≡ index_of index.now term.now }
    ensures small { IsSmallOffset result.offset }
{
    match index_form(index, term) {
        Some(form) => form,
        None => IndexForm {
            base: None,
            offset: 0,
        },
    }
}

fn form_argument(form: IndexForm) -> Arg
    ensures { result ≡ form_argument form }
{
    Arg::Index {
        base: form.base,
        offset: form.offset,
    }
}

fn pointer_argument(pointer: Option<Name>) -> Arg
    ensures { result ≡ pointer_argument pointer }
{
    match pointer {
        None => Arg::Null,
        Some(name) => Arg::Named(name),
    }
}

/// The argument that a term without applications is at a place of this sort. An idx term is a name plus a whole number, a
/// ptr term a name or null, and a num term a number where it has no name, a name where it is that name alone, and else the
/// name of a sum, which is found or made with its line. A word that stands for no name counts as 0 or null.
///
/// It asks for numbers of an idx term whose numerators' magnitudes add up to at most 2 * 10^24; then whole numbers in the
/// argument have at most this magnitude. A coefficient of a num term may be too wide, with this item, counted from 1, and
/// then the sum may pass a limit; at an error what was there before still is.
#[tactic(auto, using(crate::proofs::Making::begins_same, crate::proofs::Making::begins_trans))]
pub fn argument(
    alloc: Global,
    g: &mut Ground,
    item: u32,
    sort: Sort,
    term: &Term,
) -> Result<Arg, GroundErr>
    requires { sort ≡ Idx → weight term.now ≤ largest_offset }
    ensures made { Makes (argument_of item sort term.now) g.old g.new result }
    ensures kept { Begins g.old g.new }
    ensures small { IfOk result IsSmallArg }
{
    match sort {
        Sort::Num => num_argument(alloc, g, item, term),
        Sort::Idx => Ok(form_argument(small_form(g.names.words(), term))),
        Sort::Ptr => Ok(pointer_argument(pointer(g.names.words(), term))),
    }
}
