//! The cases of functions as the rules read them.

use hp_lit::NumLit;
use hp_num::List;
use hp_tree::{Atom, Term};

/// A bound, and the number of the clause that gives it, counted from 1.
#[derive(Drop)]
pub struct Given {
    pub clause: u32,
    pub term: Term,
}

/// A case of a function: the clauses whose guards have equal literals.
#[derive(Drop)]
pub struct Branch {
    /// The place of the function in the order of declarations, counted from 0, and the number of its arguments.
    pub func: u32,
    pub args: u8,
    /// The number of its first clause, counted from 1, and the guard of that, over the words of the arguments.
    pub clause: u32,
    pub guard: List<Atom>,
    /// The literals of the guard. The names of the arguments stand behind all others.
    pub rows: List<NumLit>,
    pub low: Option<Given>,
    pub high: Option<Given>,
    /// That the upper bound is below the lower one, where two clauses give them.
    pub gap: Option<NumLit>,
}
