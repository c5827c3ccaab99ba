//! The literals of atoms of sort num.

ghost use Rattle.std.specs.Prelude.{◌≡◌, ◌<◌, ◌^◌, length};
ghost use Rattle.hp_linear.specs.Literals.{literals};
ghost use Rattle.hp_linear.specs.Answers.{Pushed};

use crate::compare::lin_literals;
use crate::terms::linear_form;
use hp_lit::{Lit, Refusal};
use hp_names::NameIndex;
use hp_num::List;
use hp_tree::{Atom, signed};
use std::alloc::Global;

/// Adds the literals of an atom of sort num behind those that are there: one of them is true where the atom is true if
/// `positive`, and where it is false if not. For `l <= r` that is the literal `l <= r`, or `r < l`; for `l < r` the
/// literal `l < r`, or `r <= l`; `>=` and `>` exchange the sides; for `l = r` it is `l = r`, or the two literals `l < r`
/// and then `r < l`; for `l != r` the other way round. The words' names are their places from 0. The caller knows the
/// sort: null, an application and a word that is none of these count as 0.
///
/// A literal's parts are in the order of names, without a common divisor of all its numbers. `Wide` comes at the first
/// number of the computation, left before right and inner before outer, that has a magnitude above 2^127 - 1; then
/// nothing is added. At `Memory` the first of two literals may be there, and what was there before still is. It asks for
/// fewer than 2^28 words.
pub fn literals(
    alloc: Global,
    index: &NameIndex,
    positive: bool,
    atom: &Atom,
    lits: &mut List<Lit>,
) -> Result<(), Refusal>
    requires { length index.now < 2 ^ 28 }
    ensures { Pushed (literals index.now positive atom.now) lits.old lits.new result }
{
    let left = linear_form(alloc, index, &atom.left)?;
    let right = linear_form(alloc, index, &atom.right)?;
    lin_literals(alloc, signed(positive, atom.cmp), &left, &right, lits)
}
