//! Pointer terms, and the literals of atoms of sort ptr: each says that two pointers are the same, or that they are not.

ghost use Rattle.std.specs.Prelude.{◌≡◌, ◌<◌, ◌^◌, length};
ghost use Rattle.hp_index.specs.Pointers.{asks_same, pointer_of, ptr_literals};
ghost use Rattle.hp_index.specs.Answers.{Pushed};

use crate::words::name_of;
use hp_lit::{Lit, Name, PtrLit};
use hp_names::NameIndex;
use hp_num::List;
use hp_tree::{Atom, Cmp, Term, signed};
use std::alloc::AllocError;

/// The name of a pointer term over these words, by its place among them from 0, or `None` for null.
///
/// The caller knows the sort: a word that is none of these, and what is no pointer term, is null. It asks for fewer than
/// 2^28 words.
pub fn pointer(index: &NameIndex, term: &Term) -> Option<Name>
    requires { length index.now < 2 ^ 28 }
    ensures { result ≡ pointer_of index.now term.now }
{
    match term {
        Term::Name(name) => name_of(index, name.as_slice()),
        Term::Number(_)
        | Term::Null
        | Term::Apply { .. }
        | Term::Add(_, _)
        | Term::Sub(_, _)
        | Term::Neg(_)
        | Term::Scale(_, _) => None,
    }
}

/// Whether a relation of pointers is that of equal ones. One that orders numbers is none of pointers.
pub fn asks_same(cmp: Cmp) -> bool
    ensures { result ≡ asks_same cmp }
{
    match cmp {
        Cmp::Eq => true,
        Cmp::Le | Cmp::Lt | Cmp::Ne | Cmp::Ge | Cmp::Gt => false,
    }
}

/// Adds the literal of an atom of sort ptr behind those that are there: it is true where the atom is true if `positive`,
/// and where it is false if not. The words' names are their places from 0.
///
/// An `Err` comes where memory is short; then what was there before still is. It asks for fewer than 2^28 words.
pub fn pointer_literals(
    index: &NameIndex,
    positive: bool,
    atom: &Atom,
    lits: &mut List<Lit>,
) -> Result<(), AllocError>
    requires { length index.now < 2 ^ 28 }
    ensures { Pushed (ptr_literals index.now positive atom.now) lits.old lits.new result }
{
    lits.push(Lit::Ptr(PtrLit {
        same: asks_same(signed(positive, atom.cmp)),
        left: pointer(index, &atom.left),
        right: pointer(index, &atom.right),
    }))
}
