//! The sorts whose terms the sides of an atom are, found from inside out, and the sort that the atom asks of them.

ghost use Rattle.std.specs.Prelude.{◌≡◌, map};
ghost use Rattle.std.specs.List.{list_all};
ghost use Rattle.hp_terms.specs.Sorting.{fit, forms_of, first_sort, sort_of, atom_is_sorted};
ghost use Rattle.hp_sorts.specs.Scopes.{scope_of};

use crate::tables::{SortTable, Tables};
use hp_terms::{Forms, relates};
use hp_tree::{Atom, Sort, Term};

/// Whether both sides of each atom have its sort, and its relation is one of that sort.
pub fn atoms_are_sorted(tables: &Tables, vars: &SortTable, atoms: &[Atom]) -> bool
    ensures { result ≡ list_all (atom_is_sorted (scope_of tables.now vars.now)) atoms.now }
{
    atoms.iter().all(|atom| atom_is_sorted(tables, vars, atom))
}

/// Whether both sides of an atom have its sort, and its relation is one of that sort.
fn atom_is_sorted(tables: &Tables, vars: &SortTable, atom: &Atom) -> bool
    ensures { result ≡ atom_is_sorted (scope_of tables.now vars.now) atom.now }
{
    let sort = sort_of(tables, vars, atom);
    forms_of(tables, vars, &atom.left).has(sort)
        && forms_of(tables, vars, &atom.right).has(sort)
        && relates(sort, atom.cmp)
}

/// The sort of the first name, application or null of an atom, outside the arguments of applications; without one `Num`.
fn sort_of(tables: &Tables, vars: &SortTable, atom: &Atom) -> Sort
    ensures { result ≡ sort_of (scope_of tables.now vars.now) atom.now }
{
    match first_sort(tables, vars, &atom.left) {
        Some(sort) => sort,
        None => match first_sort(tables, vars, &atom.right) {
            Some(sort) => sort,
            None => Sort::Num,
        },
    }
}

/// The sort of the first name, application or null of a term, outside the arguments of applications.
#[cycle(first)]
fn first_sort(tables: &Tables, vars: &SortTable, term: &Term) -> Option<Sort>
    ensures { result ≡ first_sort (scope_of tables.now vars.now) term.now }
{
    match term {
        Term::Number(_) => None,
        Term::Null => Some(Sort::Ptr),
        Term::Name(name) => tables.name_sort(vars, name),
        Term::Apply { func, .. } => match tables.signature(func) {
            Some(signature) => Some(signature.result),
            None => None,
        },
        Term::Add(left, right) | Term::Sub(left, right) => {
            match first_sort(tables, vars, left.get()) {
                Some(sort) => Some(sort),
                None => first_sort(tables, vars, right.get()),
            }
        }
        Term::Neg(inner) | Term::Scale(_, inner) => first_sort(tables, vars, inner.get()),
    }
}

/// The sorts whose terms a term is one of.
#[cycle(forms)]
fn forms_of(tables: &Tables, vars: &SortTable, term: &Term) -> Forms
    ensures { result ≡ forms_of (scope_of tables.now vars.now) term.now }
{
    match term {
        Term::Number(value) => Forms::number(*value, false),
        Term::Null => Forms::of(Sort::Ptr),
        Term::Name(name) => match tables.name_sort(vars, name) {
            Some(sort) => Forms::of(sort),
            None => Forms::none(),
        },
        Term::Apply { func, args } => match tables.signature(func) {
            Some(signature) => {
                if have_sorts(tables, vars, args.as_slice(), signature.args.as_slice()) {
                    Forms::of(signature.result)
                } else {
                    Forms::none()
                }
            }
            None => Forms::none(),
        },
        Term::Add(left, right) => Forms::sum(
            forms_of(tables, vars, left.get()),
            forms_of(tables, vars, right.get()),
        ),
        Term::Sub(left, right) => Forms::difference(
            forms_of(tables, vars, left.get()),
            forms_of(tables, vars, right.get()),
        ),
        Term::Neg(inner) => Forms::negation(forms_of(tables, vars, inner.get())),
        Term::Scale(_, inner) => Forms::multiple(forms_of(tables, vars, inner.get())),
    }
}

/// Whether there are as many arguments as sorts, and each argument has the sort of its place.
#[cycle(forms)]
#[tactic(auto, using(crate::proofs::Walking::fit_rest, crate::proofs::Walking::fit_lengths))]
fn have_sorts(tables: &Tables, vars: &SortTable, args: &[Term], sorts: &[Sort]) -> bool
    ensures { result ≡ fit (map (forms_of (scope_of tables.now vars.now)) args.now) sorts.now }
{
    if args.len() != sorts.len() {
        return false;
    }
    for (place, arg) in args.iter().enumerate() {
        if !forms_of(tables, vars, arg).has(sorts[place]) {
            return false;
        }
    }
    true
}
