//! Whether the names of a term are declared, and its functions applied to as many arguments as declared.

ghost use Rattle.std.specs.Prelude.{◌≡◌, ℕ, map};
ghost use Rattle.std.specs.List.{list_all};
ghost use Rattle.hp_sorts.specs.Naming.{name_passes, application_passes, term_passes, atom_passes};

use crate::tables::{SortTable, Tables};
use hp_num::Text;
use hp_tree::{Atom, Term};

/// A rule on the names of a clause.
#[derive(Clone, Copy)]
pub enum NameRule {
    /// A name without arguments is a variable or a constant, and an applied name is a function.
    Known,
    /// A function has as many arguments as declared.
    Counted,
}

/// Whether the names of each atom meet the rule.
pub fn atoms_pass(tables: &Tables, vars: &SortTable, rule: NameRule, atoms: &[Atom]) -> bool
    ensures { result ≡ list_all (atom_passes tables.now vars.now rule) atoms.now }
{
    atoms
        .iter()
        .all(|atom| atom_passes(tables, vars, rule, atom))
}

/// Whether the names of both sides meet the rule.
fn atom_passes(tables: &Tables, vars: &SortTable, rule: NameRule, atom: &Atom) -> bool
    ensures { result ≡ atom_passes tables.now vars.now rule atom.now }
{
    term_passes(tables, vars, rule, &atom.left) && term_passes(tables, vars, rule, &atom.right)
}

/// Whether the names of the term meet the rule.
#[cycle(passes)]
fn term_passes(tables: &Tables, vars: &SortTable, rule: NameRule, term: &Term) -> bool
    ensures { result ≡ term_passes tables.now vars.now rule term.now }
{
    match term {
        Term::Number(_) | Term::Null => true,
        Term::Name(name) => name_passes(tables, vars, rule, name),
        Term::Apply { func, args } => {
            application_passes(tables, rule, func, args.len())
                && all_pass(tables, vars, rule, args.as_slice())
        }
        Term::Add(left, right) | Term::Sub(left, right) => {
            term_passes(tables, vars, rule, left.get())
                && term_passes(tables, vars, rule, right.get())
        }
        Term::Neg(inner) | Term::Scale(_, inner) => term_passes(tables, vars, rule, inner.get()),
    }
}

/// Whether the names of each term meet the rule.
#[cycle(passes)]
#[tactic(auto, using(crate::proofs::Walking::all_rest))]
fn all_pass(tables: &Tables, vars: &SortTable, rule: NameRule, terms: &[Term]) -> bool
    ensures { result ≡ list_all (λ passes. passes) (map (term_passes tables.now vars.now rule) terms.now) }
{
    for term in terms {
        if !term_passes(tables, vars, rule, term) {
            return false;
        }
    }
    true
}

/// Whether a name without arguments meets the rule.
fn name_passes(tables: &Tables, vars: &SortTable, rule: NameRule, name: &Text) -> bool
    ensures { result ≡ name_passes tables.now vars.now rule name.now }
{
    match rule {
        NameRule::Known => {
            vars.names.contains(name.as_slice()) || tables.constants.names.contains(name.as_slice())
        }
        NameRule::Counted => true,
    }
}

/// Whether a name that is applied to so many arguments meets the rule.
fn application_passes(tables: &Tables, rule: NameRule, func: &Text, count: usize) -> bool
    ensures { result ≡ application_passes tables.now rule func.now count }
{
    match rule {
        NameRule::Known => tables.functions.contains(func.as_slice()),
        NameRule::Counted => match tables.signature(func) {
            Some(signature) => count == signature.args.len(),
            None => false,
        },
    }
}
