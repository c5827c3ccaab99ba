//! Terms of clauses with variables: an application without variables becomes a name, one with a variable in it stays.

ghost use Rattle.std.specs.Prelude.{◌≡◌, ◌≤◌, map, IfOk};
ghost use Rattle.std.specs.List.{All, list_any};
ghost use Rattle.hp_terms.specs.Weight.{IsLightAtom, largest_offset, weight, weights};
ghost use Rattle.hp_base.specs.Making.{Begins, Makes, each};
ghost use Rattle.hp_norm.specs.Opening.{is_variable, kept_application, mentions, opened, opened_atom, opened_atoms, run};

use crate::naming::application;
use hp_defs::Ground;
use hp_lit::GroundErr;
use hp_num::{List, Text};
use hp_tree::{Atom, Term, Var};
use sqlite_items::Boxed;
use std::alloc::Global;

/// Whether a word is that of a variable.
pub fn is_variable(vars: &[Var], word: &[u8]) -> bool
    ensures { result ≡ is_variable vars.now word.now }
{
    for var in vars {
        if var.name.as_slice() == word {
            return true;
        }
    }
    false
}

/// Whether a variable occurs in a term.
#[cycle(mentions)]
pub fn mentions(vars: &[Var], term: &Term) -> bool
    ensures { result ≡ mentions vars.now term.now }
{
    match term {
        Term::Number(_) | Term::Null => false,
        Term::Name(word) => is_variable(vars, word.as_slice()),
        Term::Apply { args, .. } => mentions_any(vars, args.as_slice()),
        Term::Add(left, right) | Term::Sub(left, right) => {
            mentions(vars, left.get()) || mentions(vars, right.get())
        }
        Term::Neg(inner) | Term::Scale(_, inner) => mentions(vars, inner.get()),
    }
}

/// Whether a variable occurs in one of these terms.
#[cycle(mentions)]
fn mentions_any(vars: &[Var], terms: &[Term]) -> bool
    ensures { result ≡ list_any (λ b. b) (map (mentions vars.now) terms.now) }
{
    for term in terms {
        if mentions(vars, term) {
            return true;
        }
    }
    false
}

/// The term of an item with a name for each application in which none of the variables occurs: the word of the definition,
/// found or made. An application with a variable in it keeps its function, and its arguments are taken from left to right.
///
/// It asks for numbers whose numerators' magnitudes add up to at most 2 * 10^24, and those of the result add up to no more.
/// The limits are those of definitions and arguments, in the order of their making, with this item, counted from 1; at an
/// error what was there before still is.
#[tactic(auto, using(hp_base::proofs::Making::begins_same, hp_base::proofs::Making::begins_trans))]
#[cycle(opened)]
pub fn opened(
    alloc: Global,
    ground: &mut Ground,
    item: u32,
    vars: &[Var],
    term: &Term,
) -> Result<Term, GroundErr>
    requires { weight term.now ≤ largest_offset }
    ensures made { Makes (opened vars.now item term.now) ground.old ground.new result }
    ensures kept { Begins ground.old ground.new }
    ensures light { IfOk result (λ flat. weight flat ≤ weight term.now) }
{
    match term {
        Term::Number(number) => Ok(Term::Number(*number)),
        Term::Null => Ok(Term::Null),
        Term::Name(word) => Ok(Term::Name(word.copy(alloc)?)),
        Term::Apply { func, args } => {
            if mentions(vars, term) {
                kept_application(alloc, ground, item, vars, func, args.as_slice())
            } else {
                application(alloc, ground, item, func, args.as_slice())
            }
        }
        Term::Add(left, right) => {
            let left = opened(alloc, ground, item, vars, left.get())?;
            let right = opened(alloc, ground, item, vars, right.get())?;
            Ok(Term::Add(Boxed::new(alloc, left)?, Boxed::new(alloc, right)?))
        }
        Term::Sub(left, right) => {
            let left = opened(alloc, ground, item, vars, left.get())?;
            let right = opened(alloc, ground, item, vars, right.get())?;
            Ok(Term::Sub(Boxed::new(alloc, left)?, Boxed::new(alloc, right)?))
        }
        Term::Neg(inner) => {
            let inner = opened(alloc, ground, item, vars, inner.get())?;
            Ok(Term::Neg(Boxed::new(alloc, inner)?))
        }
        Term::Scale(number, inner) => {
            let inner = opened(alloc, ground, item, vars, inner.get())?;
            Ok(Term::Scale(*number, Boxed::new(alloc, inner)?))
        }
    }
}

/// The application of the same function at opened arguments.
#[tactic(auto, using(hp_base::proofs::Making::begins_same, hp_base::proofs::Making::begins_trans))]
#[cycle(opened)]
fn kept_application(
    alloc: Global,
    ground: &mut Ground,
    item: u32,
    vars: &[Var],
    func: &Text,
    args: &[Term],
) -> Result<Term, GroundErr>
    requires { weights (map weight args.now) ≤ largest_offset }
    ensures made { Makes (kept_application func.now (map (opened vars.now item) args.now)) ground.old ground.new result }
    ensures kept { Begins ground.old ground.new }
    ensures light { IfOk result (λ flat. weight flat ≤ weights (map weight args.now)) }
{
    let args = opened_terms(alloc, ground, item, vars, args)?;
    Ok(Term::Apply {
        func: func.copy(alloc)?,
        args,
    })
}

/// Opened terms in their order.
#[cycle(opened)]
fn opened_terms(
    alloc: Global,
    ground: &mut Ground,
    item: u32,
    vars: &[Var],
    terms: &[Term],
) -> Result<List<Term>, GroundErr>
    requires { weights (map weight terms.now) ≤ largest_offset }
    ensures made { Makes (each run (map (opened vars.now item) terms.now)) ground.old ground.new result }
    ensures kept { Begins ground.old ground.new }
    ensures light { IfOk result (λ all. weights (map weight all) ≤ weights (map weight terms.now)) }
{
    let mut all = List::new(alloc);
    for term in terms {
        let flat = opened(alloc, ground, item, vars, term)?;
        all.push(flat)?;
    }
    Ok(all)
}

/// The opened atoms in their order.
pub fn opened_atoms(
    alloc: Global,
    ground: &mut Ground,
    item: u32,
    vars: &[Var],
    atoms: &[Atom],
) -> Result<List<Atom>, GroundErr>
    requires { All IsLightAtom atoms.now }
    ensures made { Makes (opened_atoms vars.now item atoms.now) ground.old ground.new result }
    ensures kept { Begins ground.old ground.new }
    ensures light { IfOk result (All IsLightAtom) }
{
    let mut all = List::new(alloc);
    for atom in atoms {
        let atom = opened_atom(alloc, ground, item, vars, atom)?;
        all.push(atom)?;
    }
    Ok(all)
}

/// An opened atom, its left side first.
#[tactic(auto, using(hp_base::proofs::Making::begins_same, hp_base::proofs::Making::begins_trans))]
fn opened_atom(
    alloc: Global,
    ground: &mut Ground,
    item: u32,
    vars: &[Var],
    atom: &Atom,
) -> Result<Atom, GroundErr>
    requires { IsLightAtom atom.now }
    ensures made { Makes (opened_atom vars.now item atom.now) ground.old ground.new result }
    ensures kept { Begins ground.old ground.new }
    ensures light { IfOk result IsLightAtom }
{
    let left = opened(alloc, ground, item, vars, &atom.left)?;
    let right = opened(alloc, ground, item, vars, &atom.right)?;
    Ok(Atom {
        left,
        cmp: atom.cmp,
        right,
    })
}
