//! The literals of atoms of guards, as atoms that are to be true, and which of their sides are variables.

ghost use Rattle.std.specs.Prelude.{◌≡◌, ◌<◌, ◌^◌, length, true, IfOk};
ghost use Rattle.std.specs.List.{All};
ghost use Rattle.hp_terms.specs.Weight.{IsLightAtom};
ghost use Rattle.hp_index.specs.Fit.{HasSmallBound};
ghost use Rattle.hp_index.specs.Literals.{literals};
ghost use Rattle.hp_index_set.specs.IndexSet.{is_variable};

use hp_index::literals;
use hp_lit::{Lit, Name, Refusal};
use hp_names::NameIndex;
use hp_num::List;
use hp_tree::Atom;
use std::alloc::{AllocError, Global};

/// The literals of an atom of sort idx that is to be true, whose numbers together are not too large: bounds of a magnitude of
/// at most 10^25. `Err` says that memory was wanting.
pub fn index_literals(
    alloc: Global,
    words: &NameIndex,
    atom: &Atom,
) -> Result<List<Lit>, AllocError>
    requires few { length words.now < 2 ^ 28 }
    requires light { IsLightAtom atom.now }
    ensures formed { IfOk result (λ lits. lits ≡ literals words.now true atom.now) }
    ensures small { IfOk result (λ lits. All HasSmallBound lits) }
{
    let mut lits = List::new(alloc);
    match literals(words, true, atom, &mut lits) {
        Ok(()) => Ok(lits),
        Err(Refusal::Wide) | Err(Refusal::Memory) => Err(AllocError),
    }
}

/// Whether a side of a literal over so many names, with variables behind them, is a variable.
pub fn is_variable(names: u64, side: Option<Name>) -> bool
    ensures { result ≡ is_variable names side }
{
    match side {
        None => false,
        Some(name) => name.0 as u64 >= names,
    }
}
