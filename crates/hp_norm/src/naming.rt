//! Terms and atoms whose applications become names: inner before outer, arguments from left to right, each argument whole
//! before the next one. Numbers may be large where they are no indexes.

ghost use Rattle.std.specs.Prelude.{◌≡◌, ◌<◌, ◌≤◌, length, map, slice_get, Some, IfOk};
ghost use Rattle.std.specs.List.{All, AllZip};
ghost use Rattle.hp_terms.specs.Weight.{weight};
ghost use Rattle.hp_defs.specs.declared.names.Signature.{Signature as SignatureValue};
ghost use Rattle.hp_defs.specs.Made.{IsSmallArg};
ghost use Rattle.hp_base.specs.Making.{Begins, Makes};
ghost use Rattle.hp_norm.specs.Loads.{ArgumentsAreLight, HasLightIndexes, IsLightPlace, IsLightWithin, WeighsNoMore, argument_sorts, load};
ghost use Rattle.hp_norm.specs.Scopes.{function_profile, term_scope};
ghost use Rattle.hp_norm.specs.Naming.{named_atom, named_atoms, applied, applied_at, arguments, name_term, named, placed_argument};

use hp_base::{argument, definition};
use hp_defs::{Ground, Names, word_of};
use hp_lit::{Arg, GroundErr, Name};
use hp_num::{List, Text};
use hp_tree::{Atom, Sort, Term};
use sqlite_items::Boxed;
use std::alloc::{AllocError, Global};

/// The term of an item with a name for each of its applications: the word of the definition, found or made. An application
/// of a function that there isn't becomes null.
///
/// It asks for a term of which each argument that is an index has small numbers: the magnitudes of its numerators, outside of
/// its own arguments, add up to at most 2 * 10^24; other numbers may be large. The numbers of the result add up to
/// no more than those of the term outside of arguments. The limits are those of definitions and arguments, in the order of
/// their making, with this item, counted from 1; at an error what was there before still is.
#[tactic(auto, using(hp_base::proofs::Making::begins_same, hp_base::proofs::Making::begins_trans, crate::proofs::Loads::light_later, crate::proofs::Loads::difference_later))]
#[cycle(named)]
pub fn named(alloc: Global, ground: &mut Ground, item: u32, term: &Term) -> Result<Term, GroundErr>
    requires { HasLightIndexes (term_scope ground.old.names) term.now }
    ensures made { Makes (named item term.now) ground.old ground.new result }
    ensures kept { Begins ground.old ground.new }
    ensures light { IfOk result (λ flat. weight flat ≤ (load (term_scope ground.old.names) term.now).own) }
{
    match term {
        Term::Number(number) => Ok(Term::Number(*number)),
        Term::Null => Ok(Term::Null),
        Term::Name(word) => Ok(Term::Name(word.copy(alloc)?)),
        Term::Apply { func, args } => application(alloc, ground, item, func, args.as_slice()),
        Term::Add(left, right) => {
            let left = named(alloc, ground, item, left.get())?;
            let right = named(alloc, ground, item, right.get())?;
            Ok(Term::Add(Boxed::new(alloc, left)?, Boxed::new(alloc, right)?))
        }
        Term::Sub(left, right) => {
            let left = named(alloc, ground, item, left.get())?;
            let right = named(alloc, ground, item, right.get())?;
            Ok(Term::Sub(Boxed::new(alloc, left)?, Boxed::new(alloc, right)?))
        }
        Term::Neg(inner) => {
            let inner = named(alloc, ground, item, inner.get())?;
            Ok(Term::Neg(Boxed::new(alloc, inner)?))
        }
        Term::Scale(number, inner) => {
            let inner = named(alloc, ground, item, inner.get())?;
            Ok(Term::Scale(*number, Boxed::new(alloc, inner)?))
        }
    }
}

/// The name of the application of a function, as a term.
#[tactic(auto, using(hp_base::proofs::Making::begins_same, hp_base::proofs::Making::begins_trans))]
#[cycle(named)]
pub fn application(
    alloc: Global,
    ground: &mut Ground,
    item: u32,
    func: &Text,
    args: &[Term],
) -> Result<Term, GroundErr>
    requires { ArgumentsAreLight ground.old.names (argument_sorts (function_profile ground.old.names func.now)) args.now }
    ensures made { Makes (applied item func.now (map (named item) args.now)) ground.old ground.new result }
    ensures kept { Begins ground.old ground.new }
    ensures light { IfOk result (λ flat. weight flat ≡ 0) }
{
    match ground.names.function(func.as_slice()) {
        None => Ok(Term::Null),
        Some(at) => application_at(alloc, ground, item, at, args),
    }
}

/// The name of the application of the function at a place, as a term.
#[tactic(auto, using(hp_base::proofs::Making::begins_same, hp_base::proofs::Making::begins_trans))]
#[cycle(named)]
fn application_at(
    alloc: Global,
    ground: &mut Ground,
    item: u32,
    at: u32,
    args: &[Term],
) -> Result<Term, GroundErr>
    requires known { at < length ground.old.names.signatures }
    requires light { (signature : SignatureValue) → slice_get ground.old.names.signatures at ≡ Some signature → ArgumentsAreLight ground.old.names signature.args args.now }
    ensures made { Makes (applied_at item (map (named item) args.now) (Some at)) ground.old ground.new result }
    ensures kept { Begins ground.old ground.new }
    ensures light { IfOk result (λ flat. weight flat ≡ 0) }
{
    let signature = ground.names.signature(at);
    let sorts = List::from_slice(alloc, signature.args.as_slice())?;
    let args = arguments(alloc, ground, item, sorts.as_slice(), args)?;
    let name = definition(alloc, ground, at, args)?;
    let word = name_term(alloc, &ground.names, name)?;
    Ok(word)
}

/// The arguments of an application at places of these sorts.
#[cycle(named)]
fn arguments(
    alloc: Global,
    ground: &mut Ground,
    item: u32,
    sorts: &[Sort],
    terms: &[Term],
) -> Result<List<Arg>, GroundErr>
    requires { ArgumentsAreLight ground.old.names sorts.now terms.now }
    ensures made { Makes (arguments item sorts.now (map (named item) terms.now)) ground.old ground.new result }
    ensures kept { Begins ground.old ground.new }
    ensures small { IfOk result (All IsSmallArg) }
{
    let mut all = List::new(alloc);
    for (at, term) in terms.iter().enumerate() {
        if at >= sorts.len() {
            return Ok(all);
        }
        let arg = placed_argument(alloc, ground, item, sorts[at], term)?;
        all.push(arg)?;
    }
    Ok(all)
}

/// The argument at a place of this sort.
#[tactic(auto, using(hp_base::proofs::Making::begins_same, hp_base::proofs::Making::begins_trans))]
#[cycle(named)]
fn placed_argument(
    alloc: Global,
    ground: &mut Ground,
    item: u32,
    sort: Sort,
    term: &Term,
) -> Result<Arg, GroundErr>
    requires { IsLightPlace sort (load (term_scope ground.old.names) term.now) }
    ensures made { Makes (placed_argument item (record { named = named item term.now; sort = sort })) ground.old ground.new result }
    ensures kept { Begins ground.old ground.new }
    ensures small { IfOk result IsSmallArg }
{
    let flat = named(alloc, ground, item, term)?;
    argument(alloc, ground, item, sort, &flat)
}

/// The atoms of an item with names for their applications, in their order.
///
/// It asks for atoms of which each argument that is an index has small numbers, as in `named`. The numbers of a
/// side of the result add up to no more than those of that side outside of arguments. The first limit that is passed is the
/// one that comes, with this item, counted from 1; at an error what was there before still is.
pub fn named_atoms(
    alloc: Global,
    ground: &mut Ground,
    item: u32,
    atoms: &[Atom],
) -> Result<List<Atom>, GroundErr>
    requires { All (IsLightWithin (term_scope ground.old.names)) atoms.now }
    ensures made { Makes (named_atoms item atoms.now) ground.old ground.new result }
    ensures kept { Begins ground.old ground.new }
    ensures light { IfOk result (AllZip (WeighsNoMore (term_scope ground.old.names)) atoms.now) }
{
    let mut all = List::new(alloc);
    for atom in atoms {
        let atom = named_atom(alloc, ground, item, atom)?;
        all.push(atom)?;
    }
    Ok(all)
}

/// An atom with names for its applications, its left side first.
#[tactic(auto, using(hp_base::proofs::Making::begins_same, hp_base::proofs::Making::begins_trans, crate::proofs::Loads::light_later, crate::proofs::Loads::own_later))]
fn named_atom(alloc: Global, ground: &mut Ground, item: u32, atom: &Atom) -> Result<Atom, GroundErr>
    requires { IsLightWithin (term_scope ground.old.names) atom.now }
    ensures made { Makes (named_atom item atom.now) ground.old ground.new result }
    ensures kept { Begins ground.old ground.new }
    ensures light { IfOk result (WeighsNoMore (term_scope ground.old.names) atom.now) }
{
    let left = named(alloc, ground, item, &atom.left)?;
    let right = named(alloc, ground, item, &atom.right)?;
    Ok(Atom {
        left,
        cmp: atom.cmp,
        right,
    })
}

/// The word of a definition as a term.
fn name_term(alloc: Global, names: &Names, name: Name) -> Result<Term, AllocError>
    ensures { IfOk result (λ term. term ≡ name_term names.now name) }
{
    let constants = names.constants().len() as u64;
    let number = (name.0 as u64).saturating_sub(constants) + 1;
    Ok(Term::Name(word_of(alloc, number)?))
}
