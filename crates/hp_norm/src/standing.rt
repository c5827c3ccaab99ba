//! Stand-ins for the applications that are left in a clause: names that are yet to come, one for equal trees.

ghost use Rattle.std.specs.Prelude.{◌≡◌, ◌<◌, ◌≤◌, ◌^◌, ◌+◌, length, map, IfErr, IfOk, OnOk};
ghost use Rattle.hp_lit.specs.declared.refusal.Refusal.TheVariants.{Memory};
ghost use Rattle.hp_defs.specs.Names.{constant_name};
ghost use Rattle.hp_terms.specs.Words.{numbered};
ghost use Rattle.hp_norm.specs.Testing.{HasRoom, clause_words, gathered_atoms, hidden, hidden_atom, left_in, stand_in, standing_of, variable_words, with_word, with_words};

use crate::flat::FlatClause;
use crate::term_index::TermIndex;
use crate::trees::gather;
use hp_defs::{Constant, Names, word_of};
use hp_lit::Refusal;
use hp_names::NameIndex;
use hp_num::Text;
use hp_tree::{Atom, Term, Var};
use sqlite_items::Boxed;
use std::alloc::{AllocError, Global};

/// The applications that are left in a clause, with the words over which its literals are formed.
#[derive(Drop)]
pub struct Standing {
    /// How many definitions there are: the next one stands in for the first application.
    pub made: u64,
    /// The different applications, those in arguments too.
    pub apps: TermIndex,
    /// Names, variables, a stand-in for each application, and one more.
    pub words: NameIndex,
}

/// The most variables, and the most applications, for which there is room.
const MOST: usize = 1 << 26;

/// What stands in for the applications of a clause. `Memory` comes where memory is short, and where there are more than
/// 2^26 of them or of variables.
pub fn make_standing(alloc: Global, names: &Names, clause: &FlatClause) -> Result<Standing, Refusal>
    ensures made { IfOk result (λ s. s ≡ standing_of names.now clause.now) }
    ensures room { IfOk result HasRoom }
    ensures short { IfErr result (λ e. e ≡ Memory) }
{
    let apps = left_in(alloc, clause)?;
    let more = apps.len();
    let words = clause_words(alloc, names, clause.vars.as_slice(), more)?;
    Ok(Standing {
        made: names.definitions().len() as u64,
        apps,
        words,
    })
}

/// The different applications that are left in a clause.
fn left_in(alloc: Global, clause: &FlatClause) -> Result<TermIndex, AllocError>
    ensures { IfOk result (λ apps. apps ≡ left_in clause.now) }
{
    let mut apps = TermIndex::new(alloc);
    gather_atoms(alloc, &mut apps, clause.guard.as_slice())?;
    gather_atoms(alloc, &mut apps, clause.head.as_slice())?;
    Ok(apps)
}

/// Adds the applications in atoms that are not there yet, left sides first.
fn gather_atoms(alloc: Global, apps: &mut TermIndex, atoms: &[Atom]) -> Result<(), AllocError>
    ensures { OnOk result (apps.new ≡ gathered_atoms atoms.now apps.old) }
{
    for atom in atoms {
        gather(alloc, &atom.left, apps)?;
        gather(alloc, &atom.right, apps)?;
    }
    Ok(())
}

/// The words of names and variables, with one more than so many definitions that are yet to come.
fn clause_words(
    alloc: Global,
    names: &Names,
    vars: &[Var],
    more: usize,
) -> Result<NameIndex, Refusal>
    ensures made { IfOk result (λ words. words ≡ clause_words names.now vars.now (more + 1)) }
    ensures few { IfOk result (λ words. length words < 2 ^ 28) }
    ensures room { IfOk result (λ words. more ≤ 2 ^ 26) }
    ensures short { IfErr result (λ e. e ≡ Memory) }
{
    if vars.len() > MOST || more > MOST {
        return Err(Refusal::Memory);
    }
    let mut words = NameIndex::new(alloc);
    add_constants(alloc, &mut words, names.constants())?;
    add_variables(alloc, &mut words, vars)?;
    add_numbered(alloc, &mut words, names.definitions().len() + (more + 1))?;
    Ok(words)
}

/// Adds the words of constants that are not there yet.
fn add_constants(
    alloc: Global,
    words: &mut NameIndex,
    constants: &[Constant],
) -> Result<(), AllocError>
    ensures { OnOk result (words.new ≡ with_words words.old (map constant_name constants.now)) }
{
    for constant in constants {
        words.insert(alloc, constant.name.as_slice())?;
    }
    Ok(())
}

/// Adds the words of variables that are not there yet.
fn add_variables(alloc: Global, words: &mut NameIndex, vars: &[Var]) -> Result<(), AllocError>
    ensures { OnOk result (words.new ≡ with_words words.old (variable_words vars.now)) }
{
    for var in vars {
        words.insert(alloc, var.name.as_slice())?;
    }
    Ok(())
}

/// Adds the words of so many definitions that are not there yet.
fn add_numbered(alloc: Global, words: &mut NameIndex, count: usize) -> Result<(), AllocError>
    requires { count < 2 ^ 28 }
    ensures { OnOk result (words.new ≡ with_words words.old (numbered 1 count)) }
{
    for at in 0..count {
        let word = word_of(alloc, at as u64 + 1)?;
        words.insert(alloc, word.as_slice())?;
    }
    Ok(())
}

/// The word of the stand-in at this place, counted from 0.
pub fn stand_in(alloc: Global, standing: &Standing, at: usize) -> Result<Text, AllocError>
    requires { standing.now.made + at < 2 ^ 32 }
    ensures { IfOk result (λ word. word ≡ stand_in standing.now at) }
{
    word_of(alloc, standing.made + at as u64 + 1)
}

/// A term with the stand-ins of its applications.
#[cycle(hidden)]
pub fn hidden(alloc: Global, standing: &Standing, term: &Term) -> Result<Term, AllocError>
    requires { HasRoom standing.now }
    ensures { IfOk result (λ flat. flat ≡ hidden standing.now term.now) }
{
    match term {
        Term::Number(number) => Ok(Term::Number(*number)),
        Term::Null => Ok(Term::Null),
        Term::Name(word) => Ok(Term::Name(word.copy(alloc)?)),
        Term::Apply { .. } => {
            let at = standing.apps.place_of(alloc, term)?;
            Ok(Term::Name(stand_in(alloc, standing, at)?))
        }
        Term::Add(left, right) => {
            let left = hidden(alloc, standing, left.get())?;
            let right = hidden(alloc, standing, right.get())?;
            Ok(Term::Add(Boxed::new(alloc, left)?, Boxed::new(alloc, right)?))
        }
        Term::Sub(left, right) => {
            let left = hidden(alloc, standing, left.get())?;
            let right = hidden(alloc, standing, right.get())?;
            Ok(Term::Sub(Boxed::new(alloc, left)?, Boxed::new(alloc, right)?))
        }
        Term::Neg(inner) => {
            let inner = hidden(alloc, standing, inner.get())?;
            Ok(Term::Neg(Boxed::new(alloc, inner)?))
        }
        Term::Scale(number, inner) => {
            let inner = hidden(alloc, standing, inner.get())?;
            Ok(Term::Scale(*number, Boxed::new(alloc, inner)?))
        }
    }
}

/// An atom with the stand-ins of its applications.
pub fn hidden_atom(alloc: Global, standing: &Standing, atom: &Atom) -> Result<Atom, AllocError>
    requires { HasRoom standing.now }
    ensures { IfOk result (λ flat. flat ≡ hidden_atom standing.now atom.now) }
{
    Ok(Atom {
        left: hidden(alloc, standing, &atom.left)?,
        cmp: atom.cmp,
        right: hidden(alloc, standing, &atom.right)?,
    })
}
