//! Clauses with arguments in the places of their variables.

ghost use Rattle.std.specs.Prelude.{◌≡◌, ◌<◌, IfOk, map};
ghost use Rattle.std.specs.List.{All};
ghost use Rattle.hp_defs.specs.Made.{IsSmallArg};
ghost use Rattle.hp_defs.specs.Names.{count};
ghost use Rattle.hp_local.specs.Substitution.{substitute, substitute_atom};
ghost use Rattle.hp_instance.specs.Replacing.{IsKnownArg, IsKnownBase, arg_term, arg_terms, index_term, name_word, replaced_word};

use hp_defs::{Names, word_of};
use hp_lit::{Arg, Name};
use hp_num::{Frac, List, Text, Whole};
use hp_tree::{Atom, Term, Var};
use sqlite_items::Boxed;
use std::alloc::{AllocError, Global};

// ---- arguments as terms

/// The word of a name below the count.
fn name_word(alloc: Global, names: &Names, name: Name) -> Result<Text, AllocError>
    requires { name.0 < count names.now }
    ensures { IfOk result (λ word. word ≡ name_word names.now name) }
{
    let constants = names.constants().len();
    let at = name.0 as usize;
    if at < constants {
        names.constant_name(name).copy(alloc)
    } else {
        let word = word_of(alloc, (at - constants) as u64 + 1)?;
        Ok(word)
    }
}

/// The sum of a name and a number, or the number where there is no name.
fn index_term(
    alloc: Global,
    names: &Names,
    base: Option<Name>,
    offset: Term,
) -> Result<Term, AllocError>
    requires { IsKnownBase names.now base }
    ensures { IfOk result (λ term. term ≡ index_term names.now base offset) }
{
    match base {
        None => Ok(offset),
        Some(name) => {
            let left = Term::Name(name_word(alloc, names, name)?);
            Ok(Term::Add(Boxed::new(alloc, left)?, Boxed::new(alloc, offset)?))
        }
    }
}

/// An argument as a term.
fn arg_term(alloc: Global, names: &Names, arg: Arg) -> Result<Term, AllocError>
    requires known { IsKnownArg names.now arg }
    requires small { IsSmallArg arg }
    ensures { IfOk result (λ term. term ≡ arg_term names.now arg) }
{
    match arg {
        Arg::Number(number) => Ok(Term::Number(number)),
        Arg::Named(name) => Ok(Term::Name(name_word(alloc, names, name)?)),
        Arg::Index { base, offset } => {
            let number = Term::Number(Frac::whole(Whole::new(offset)));
            index_term(alloc, names, base, number)
        }
        Arg::Null => Ok(Term::Null),
    }
}

/// Arguments as terms, in their order.
pub(crate) fn arg_terms(
    alloc: Global,
    names: &Names,
    args: &[Arg],
) -> Result<List<Term>, AllocError>
    requires known { All (IsKnownArg names.now) args.now }
    requires small { All IsSmallArg args.now }
    ensures { IfOk result (λ terms. terms ≡ arg_terms names.now args.now) }
{
    let mut terms = List::new(alloc);
    for arg in args {
        terms.push(arg_term(alloc, names, *arg)?)?;
    }
    Ok(terms)
}

// ---- in the places of variables

/// The term of the first variable with this word, or the word as a name.
#[tactic(auto, using(crate::proofs::Walking::word_walks))]
fn replaced_word(
    alloc: Global,
    vars: &[Var],
    terms: &[Term],
    word: &Text,
) -> Result<Term, AllocError>
    ensures { IfOk result (λ term. term ≡ replaced_word vars.now terms.now word.now) }
{
    for (at, var) in vars.iter().enumerate() {
        if at >= terms.len() {
            return Ok(Term::Name(word.copy(alloc)?));
        }
        if var.name.as_slice() == word.as_slice() {
            return terms[at].copy(alloc);
        }
    }
    Ok(Term::Name(word.copy(alloc)?))
}

/// The term with these terms in the places of variables.
#[cycle(replaced)]
fn replaced(alloc: Global, term: &Term, vars: &[Var], terms: &[Term]) -> Result<Term, AllocError>
    ensures { IfOk result (λ made. made ≡ substitute (replaced_word vars.now terms.now) term.now) }
{
    match term {
        Term::Number(number) => Ok(Term::Number(*number)),
        Term::Null => Ok(Term::Null),
        Term::Name(word) => replaced_word(alloc, vars, terms, word),
        Term::Apply { func, args } => Ok(Term::Apply {
            func: func.copy(alloc)?,
            args: replaced_all(alloc, args.as_slice(), vars, terms)?,
        }),
        Term::Add(left, right) => Ok(Term::Add(
            Boxed::new(alloc, replaced(alloc, left.get(), vars, terms)?)?,
            Boxed::new(alloc, replaced(alloc, right.get(), vars, terms)?)?,
        )),
        Term::Sub(left, right) => Ok(Term::Sub(
            Boxed::new(alloc, replaced(alloc, left.get(), vars, terms)?)?,
            Boxed::new(alloc, replaced(alloc, right.get(), vars, terms)?)?,
        )),
        Term::Neg(inner) => Ok(Term::Neg(Boxed::new(
            alloc,
            replaced(alloc, inner.get(), vars, terms)?,
        )?)),
        Term::Scale(number, inner) => Ok(Term::Scale(
            *number,
            Boxed::new(alloc, replaced(alloc, inner.get(), vars, terms)?)?,
        )),
    }
}

/// All of these terms with terms in the places of variables, in their order.
#[cycle(replaced)]
fn replaced_all(
    alloc: Global,
    all: &[Term],
    vars: &[Var],
    terms: &[Term],
) -> Result<List<Term>, AllocError>
    ensures { IfOk result (λ made. made ≡ map (substitute (replaced_word vars.now terms.now)) all.now) }
{
    let mut made = List::new(alloc);
    for term in all {
        made.push(replaced(alloc, term, vars, terms)?)?;
    }
    Ok(made)
}

/// An atom with these terms in the places of variables.
fn replaced_atom(
    alloc: Global,
    vars: &[Var],
    terms: &[Term],
    atom: &Atom,
) -> Result<Atom, AllocError>
    ensures { IfOk result (λ made. made ≡ substitute_atom (replaced_word vars.now terms.now) atom.now) }
{
    Ok(Atom {
        left: replaced(alloc, &atom.left, vars, terms)?,
        cmp: atom.cmp,
        right: replaced(alloc, &atom.right, vars, terms)?,
    })
}

/// Atoms with these terms in the places of variables, in their order.
pub(crate) fn replaced_atoms(
    alloc: Global,
    vars: &[Var],
    terms: &[Term],
    atoms: &[Atom],
) -> Result<List<Atom>, AllocError>
    ensures { IfOk result (λ made. made ≡ map (substitute_atom (replaced_word vars.now terms.now)) atoms.now) }
{
    let mut made = List::new(alloc);
    for atom in atoms {
        made.push(replaced_atom(alloc, vars, terms, atom)?)?;
    }
    Ok(made)
}
