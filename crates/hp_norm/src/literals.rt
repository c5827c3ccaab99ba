//! The literals of atoms over names, each by the sort of the atom's first word.

ghost use Rattle.std.specs.Prelude.{◌≡◌};
ghost use Rattle.std.specs.List.{All};
ghost use Rattle.hp_terms.specs.Sorting.{first_sort, sort_of};
ghost use Rattle.hp_terms.specs.Weight.{IsLightAtom};
ghost use Rattle.hp_linear.specs.Answers.{Answers, Pushed};
ghost use Rattle.hp_base.specs.Lines.{flat_scope};
ghost use Rattle.hp_norm.specs.Answers.{Added};
ghost use Rattle.hp_norm.specs.Lines.{atom_literals, atoms_literals, flat_literals};

use hp_base::literals_as;
use hp_defs::Names;
use hp_lit::{Lit, Name, Refusal};
use hp_num::{List, Text};
use hp_tree::{Atom, Sort, Term};
use std::alloc::Global;

/// The literals of guard atoms, which are to be false, and then of head atoms, which are to be true.
///
/// It asks for numbers of an atom whose numerators' magnitudes add up to less than 2 * 10^24. `Wide` comes at the first
/// number of the computation with a magnitude above 2^127 - 1.
pub fn flat_literals(
    alloc: Global,
    names: &Names,
    guard: &[Atom],
    head: &[Atom],
) -> Result<List<Lit>, Refusal>
    requires guard { All IsLightAtom guard.now }
    requires head { All IsLightAtom head.now }
    ensures { Answers (flat_literals names.now guard.now head.now) result }
{
    let mut lits = List::new(alloc);
    push_literals(alloc, names, false, guard, &mut lits)?;
    push_literals(alloc, names, true, head, &mut lits)?;
    Ok(lits)
}

/// Adds the literals of atoms in their order behind those that are there: of atoms that are to be true, or, where they are
/// not `positive`, false.
fn push_literals(
    alloc: Global,
    names: &Names,
    positive: bool,
    atoms: &[Atom],
    lits: &mut List<Lit>,
) -> Result<(), Refusal>
    requires { All IsLightAtom atoms.now }
    ensures { Added (atoms_literals names.now positive atoms.now) lits.old lits.new result }
{
    for atom in atoms {
        push_atom(alloc, names, positive, atom, lits)?;
    }
    Ok(())
}

/// Adds the literals of an atom behind those that are there.
fn push_atom(
    alloc: Global,
    names: &Names,
    positive: bool,
    atom: &Atom,
    lits: &mut List<Lit>,
) -> Result<(), Refusal>
    requires { IsLightAtom atom.now }
    ensures { Pushed (atom_literals names.now positive atom.now) lits.old lits.new result }
{
    literals_as(
        alloc,
        names.words(),
        sort_of(names, atom),
        positive,
        atom,
        lits,
    )
}

/// The sort of the first name or null of an atom; without one `Num`.
fn sort_of(names: &Names, atom: &Atom) -> Sort
    ensures { result ≡ sort_of (flat_scope names.now) atom.now }
{
    match first_sort(names, &atom.left) {
        Some(sort) => sort,
        None => match first_sort(names, &atom.right) {
            Some(sort) => sort,
            None => Sort::Num,
        },
    }
}

/// The sort of the first name or null of a term. An application has none, since names stand for all of them.
fn first_sort(names: &Names, term: &Term) -> Option<Sort>
    ensures { result ≡ first_sort (flat_scope names.now) term.now }
{
    match term {
        Term::Number(_) | Term::Apply { .. } => None,
        Term::Null => Some(Sort::Ptr),
        Term::Name(word) => word_sort(names, word),
        Term::Add(left, right) | Term::Sub(left, right) => match first_sort(names, left.get()) {
            Some(sort) => Some(sort),
            None => first_sort(names, right.get()),
        },
        Term::Neg(inner) | Term::Scale(_, inner) => first_sort(names, inner.get()),
    }
}

/// The sort of the name that a word stands for, or `None` where it stands for none.
pub fn word_sort(names: &Names, word: &Text) -> Option<Sort>
    ensures { result ≡ (flat_scope names.now).name word.now }
{
    match names.words().position(word.as_slice()) {
        Some(at) => Some(names.sort(Name(at as u32))),
        None => None,
    }
}
