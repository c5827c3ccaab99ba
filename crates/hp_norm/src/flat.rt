//! Flat clauses: universal clauses whose applications without variables are names.

use hp_defs::Ground;
use hp_num::List;
use hp_tree::{Atom, Var};

/// A clause with variables in which each application without variables is the name of its definition, by the word `_1`,
/// `_2` and so on. Applications with variables are left.
#[derive(Drop)]
pub struct FlatClause {
    /// The number of the clause, counted from 1.
    pub clause: u32,
    /// The item that the clause is, counted from 1 over declarations and clauses.
    pub item: u32,
    pub vars: List<Var>,
    pub guard: List<Atom>,
    pub head: List<Atom>,
}

/// What a problem is after its applications without variables were named.
#[derive(Drop)]
pub struct Flat {
    /// The ground set so far: names, the lines of sums, and a line for each clause without variables.
    pub ground: Ground,
    /// The clauses with variables, in the order of the text.
    pub clauses: List<FlatClause>,
}
