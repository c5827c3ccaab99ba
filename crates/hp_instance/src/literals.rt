//! The literals of the atoms of an instance, each by the sort that its atom has in the clause.

ghost use Rattle.std.specs.Prelude.{◌≡◌, ◌<◌, ◌≤◌, ◌^◌, length};
ghost use Rattle.std.specs.List.{AllZip};
ghost use Rattle.hp_tree.specs.declared.problem.Sort.TheVariants.{Idx};
ghost use Rattle.hp_terms.specs.Weight.{weight};
ghost use Rattle.hp_index.specs.Fit.{IsSmallSide, largest_side};
ghost use Rattle.hp_index.specs.Forms.{index_of};
ghost use Rattle.hp_linear.specs.Answers.{Answers, Pushed};
ghost use Rattle.hp_base.specs.Lines.{literals_as};
ghost use Rattle.hp_norm.specs.Answers.{Added};
ghost use Rattle.hp_instance.specs.Instances.{HasSmallSides, IsLightFor, literals_of, sorted_literals};

use hp_base::literals_as;
use hp_defs::Names;
use hp_index::{IndexForm, form_literals, index_form};
use hp_lit::{Lit, Refusal};
use hp_names::NameIndex;
use hp_num::List;
use hp_tree::{Atom, Sort, Term, signed};
use std::alloc::Global;

/// The literals of guard atoms of these sorts, which are to be false, and then of head atoms, which are to be true.
pub(crate) fn sorted_literals(
    alloc: Global,
    names: &Names,
    guard_sorts: &[Sort],
    guard: &[Atom],
    head_sorts: &[Sort],
    head: &[Atom],
) -> Result<List<Lit>, Refusal>
    requires guard { AllZip IsLightFor guard_sorts.now guard.now }
    requires head { AllZip IsLightFor head_sorts.now head.now }
    ensures { Answers (sorted_literals names.now guard_sorts.now guard.now head_sorts.now head.now) result }
{
    let mut lits = List::new(alloc);
    push_literals(alloc, names, false, guard_sorts, guard, &mut lits)?;
    push_literals(alloc, names, true, head_sorts, head, &mut lits)?;
    Ok(lits)
}

/// Adds the literals of atoms of these sorts in their order behind those that are there: of atoms that are to be true, or,
/// where they are not `positive`, false.
fn push_literals(
    alloc: Global,
    names: &Names,
    positive: bool,
    sorts: &[Sort],
    atoms: &[Atom],
    lits: &mut List<Lit>,
) -> Result<(), Refusal>
    requires { AllZip IsLightFor sorts.now atoms.now }
    ensures { Added (literals_of names.now positive sorts.now atoms.now) lits.old lits.new result }
{
    for (at, atom) in atoms.iter().enumerate() {
        if at >= sorts.len() {
            return Ok(());
        }
        push_atom(alloc, names.words(), sorts[at], positive, atom, lits)?;
    }
    Ok(())
}

/// Adds the literals of an atom of a sort behind those that are there.
fn push_atom(
    alloc: Global,
    index: &NameIndex,
    sort: Sort,
    positive: bool,
    atom: &Atom,
    lits: &mut List<Lit>,
) -> Result<(), Refusal>
    requires few { length index.now < 2 ^ 28 }
    requires light { IsLightFor sort atom.now }
    ensures { Pushed (literals_as sort index.now positive atom.now) lits.old lits.new result }
{
    match sort {
        Sort::Idx => push_index_atom(index, positive, atom, lits),
        Sort::Num | Sort::Ptr => literals_as(alloc, index, sort, positive, atom, lits),
    }
}

/// Adds the literals of an atom of sort idx, which compare the forms of its sides.
fn push_index_atom(
    index: &NameIndex,
    positive: bool,
    atom: &Atom,
    lits: &mut List<Lit>,
) -> Result<(), Refusal>
    requires few { length index.now < 2 ^ 28 }
    requires light { HasSmallSides atom.now }
    ensures { Pushed (literals_as Idx index.now positive atom.now) lits.old lits.new result }
{
    let left = small_form(index, &atom.left);
    let right = small_form(index, &atom.right);
    form_literals(signed(positive, atom.cmp), left, right, lits)?;
    Ok(())
}

/// The form of an idx term whose numbers are not too large.
fn small_form(index: &NameIndex, term: &Term) -> IndexForm
    requires few { length index.now < 2 ^ 28 }
    requires light { weight term.now ≤ largest_side }
    ensures form { result ≡ index_of index.now term.now }
    ensures small { IsSmallSide result.offset }
{
    match index_form(index, term) {
        Some(form) => form,
        None => IndexForm {
            base: None,
            offset: 0,
        },
    }
}
