//! The sorts of atoms of a clause with variables, each by its first word.

ghost use Rattle.std.specs.Prelude.{◌≡◌, option_map};
ghost use Rattle.hp_terms.specs.Sorting.{first_sort, sort_of};
ghost use Rattle.hp_norm.specs.Scopes.{clause_scope, function_profile, variable_sort};

use crate::literals::word_sort;
use hp_defs::Names;
use hp_num::Text;
use hp_tree::{Atom, Sort, Term, Var};

/// The sort of the first name, application or null of an atom over names and variables; without one `Num`.
pub fn clause_sort(names: &Names, vars: &[Var], atom: &Atom) -> Sort
    ensures { result ≡ sort_of (clause_scope names.now vars.now) atom.now }
{
    match clause_first_sort(names, vars, &atom.left) {
        Some(sort) => sort,
        None => match clause_first_sort(names, vars, &atom.right) {
            Some(sort) => sort,
            None => Sort::Num,
        },
    }
}

/// The sort of the first name, application or null of a term that is no part of an argument.
fn clause_first_sort(names: &Names, vars: &[Var], term: &Term) -> Option<Sort>
    ensures { result ≡ first_sort (clause_scope names.now vars.now) term.now }
{
    match term {
        Term::Number(_) => None,
        Term::Null => Some(Sort::Ptr),
        Term::Name(word) => clause_word_sort(names, vars, word),
        Term::Apply { func, .. } => result_sort(names, func),
        Term::Add(left, right) | Term::Sub(left, right) => {
            match clause_first_sort(names, vars, left.get()) {
                Some(sort) => Some(sort),
                None => clause_first_sort(names, vars, right.get()),
            }
        }
        Term::Neg(inner) | Term::Scale(_, inner) => clause_first_sort(names, vars, inner.get()),
    }
}

/// The sort of the variable or else of the name that a word stands for, or `None` where it stands for none.
fn clause_word_sort(names: &Names, vars: &[Var], word: &Text) -> Option<Sort>
    ensures { result ≡ (clause_scope names.now vars.now).name word.now }
{
    match variable_sort(vars, word) {
        Some(sort) => Some(sort),
        None => word_sort(names, word),
    }
}

/// The sort of the first variable with this word, or `None` where there is none.
fn variable_sort(vars: &[Var], word: &Text) -> Option<Sort>
    ensures { result ≡ variable_sort vars.now word.now }
{
    for var in vars {
        if var.name.as_slice() == word.as_slice() {
            return Some(var.sort);
        }
    }
    None
}

/// The sort of the values of the function with this word, or `None` where there is none.
fn result_sort(names: &Names, func: &Text) -> Option<Sort>
    ensures { result ≡ option_map (λ profile. profile.result) (function_profile names.now func.now) }
{
    match names.function(func.as_slice()) {
        Some(at) => Some(names.signature(at).result),
        None => None,
    }
}
