//! The counts of a problem against the limits of a text.

ghost use Rattle.std.specs.Prelude.{◌≡◌};
ghost use Rattle.std.specs.List.{list_any};
ghost use Rattle.hp_sorts.specs.Limits.{passed, limit, has_many_variables, has_many_arguments};

use hp_tree::{Clause, Decl, Limit, MOST_ARGUMENTS, MOST_CLAUSES, MOST_VARIABLES, Problem, Which};

/// The first limit of a text that the problem passes: 2,000 clauses, then 6 variables of a clause, then 4 arguments of
/// a declared function. `None` where it passes none. The `item` is 0. Takes no memory.
pub fn counts(p: &Problem) -> Option<Limit>
    ensures { result ≡ passed p.now }
{
    if p.clauses.len() > MOST_CLAUSES {
        return Some(limit(Which::Clauses, MOST_CLAUSES));
    }
    if some_has_many_variables(p.clauses.as_slice()) {
        return Some(limit(Which::Variables, MOST_VARIABLES));
    }
    if some_has_many_arguments(p.decls.as_slice()) {
        return Some(limit(Which::Arguments, MOST_ARGUMENTS));
    }
    None
}

/// A limit that no single item passes.
fn limit(which: Which, most: usize) -> Limit
    ensures { result ≡ limit which most }
{
    Limit {
        which,
        most: most as u64,
        item: 0,
    }
}

/// Whether a clause has more than 6 variables.
fn some_has_many_variables(clauses: &[Clause]) -> bool
    ensures { result ≡ list_any has_many_variables clauses.now }
{
    clauses
        .iter()
        .any(|clause| clause.vars.len() > MOST_VARIABLES)
}

/// Whether a function is declared with more than 4 arguments.
fn some_has_many_arguments(decls: &[Decl]) -> bool
    ensures { result ≡ list_any has_many_arguments decls.now }
{
    decls.iter().any(|decl| has_many_arguments(decl))
}

/// Whether a declaration is one of a function with more than 4 arguments.
fn has_many_arguments(decl: &Decl) -> bool
    ensures { result ≡ has_many_arguments decl.now }
{
    match decl {
        Decl::Const { .. } => false,
        Decl::Fun { args, .. } => args.len() > MOST_ARGUMENTS,
    }
}
