//! The clauses and the cases of a function, as copies.

ghost use Rattle.std.specs.Prelude.{◌≡◌, IfOk, option_map};
ghost use Rattle.hp_ruled.specs.Laws.{case_of, cases_of, clauses_of, given_term};

use hp_cases::Case;
use hp_norm::FlatClause;
use hp_num::List;
use hp_pairs::{Branch, Given};
use hp_rules::{CaseClause, copy_atoms, copy_clause};
use hp_tree::Term;
use std::alloc::{AllocError, Global};

/// The cases of the function at a place in the order of declarations, counted from 0, in their order.
pub fn cases_of(alloc: Global, func: u32, branches: &[Branch]) -> Result<List<Case>, AllocError>
    ensures { IfOk result (λ cases. cases ≡ cases_of func branches.now) }
{
    let mut cases = List::new(alloc);
    for branch in branches {
        if branch.func == func {
            cases.push(case_of(alloc, branch)?)?;
        }
    }
    Ok(cases)
}

fn case_of(alloc: Global, branch: &Branch) -> Result<Case, AllocError>
    ensures { IfOk result (λ case. case ≡ case_of branch.now) }
{
    let guard = copy_atoms(alloc, branch.guard.as_slice())?;
    let low = term_of(alloc, &branch.low)?;
    let high = term_of(alloc, &branch.high)?;
    Ok(Case { guard, low, high })
}

fn term_of(alloc: Global, given: &Option<Given>) -> Result<Option<Term>, AllocError>
    ensures { IfOk result (λ term. term ≡ option_map given_term given.now) }
{
    match given {
        None => Ok(None),
        Some(given) => {
            let term = given.term.copy(alloc)?;
            Ok(Some(term))
        }
    }
}

/// The clauses of the function at a place, in their order.
pub fn clauses_of(
    alloc: Global,
    func: u32,
    clauses: &[CaseClause],
) -> Result<List<FlatClause>, AllocError>
    ensures { IfOk result (λ own. own ≡ clauses_of func clauses.now) }
{
    let mut own = List::new(alloc);
    for clause in clauses {
        if clause.func == func {
            own.push(copy_clause(alloc, &clause.clause)?)?;
        }
    }
    Ok(own)
}
