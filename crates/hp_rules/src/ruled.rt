//! What clauses are once they are read.

use hp_norm::FlatClause;
use hp_num::List;
use hp_pairs::{Branch, Outside};
use hp_tree::Limit;
use std::alloc::AllocError;

/// A clause of a case, over the words of the arguments of its function.
#[derive(Drop)]
pub struct CaseClause {
    /// The place of its function in the order of declarations, counted from 0.
    pub func: u32,
    pub clause: FlatClause,
}

/// A clause over arrays.
#[derive(Drop)]
pub struct ArrayClause {
    /// The level of its arrays.
    pub level: u64,
    /// The function of each of its applications, by its place in the order of declarations, counted from 0.
    pub funcs: List<u32>,
    pub clause: FlatClause,
}

/// Clauses that keep the rules.
#[derive(Drop)]
pub struct Ruled {
    /// The own function of each clause over functions of num to num, by its place in the order of declarations, counted from 0.
    pub owned: List<u32>,
    /// The cases of all functions, in the order of their first clauses.
    pub branches: List<Branch>,
    /// The clauses of cases, in the order of the text.
    pub clauses: List<CaseClause>,
    /// The clauses over arrays, in the order of the text.
    pub arrays: List<ArrayClause>,
}

/// Why clauses can't be taken.
#[derive(Drop)]
pub enum RuleErr {
    /// A clause breaks a rule.
    Outside(Outside),
    /// A number of a literal of a guard passes 2^127 - 1. No such clause is left behind the naming of its terms, which forms the
    /// negated literals.
    Limit(Limit),
    /// Memory was wanting.
    Memory,
}

impl From<AllocError> for RuleErr {
    ghost use Rattle.std.specs.Prelude.{◌≡◌};
    ghost use Rattle.hp_rules.specs.declared.ruled.RuleErr.TheVariants.{Memory};

    ghost from_gives = { λ _ e. e ≡ Memory };

    fn from(_error: AllocError) -> RuleErr {
        RuleErr::Memory
    }
}
