//! The check of a whole problem.

ghost use Rattle.std.specs.Prelude.{◌≡◌, ◌+◌, ◌<◌, ◌^◌, length};
ghost use Rattle.hp_sorts.specs.Symbols.{symbols};
ghost use Rattle.hp_sorts.specs.Faults.{Answers, sort_fault};

use crate::clauses::check_clauses;
use crate::declarations::declare_all;
use crate::fault::SortErr;
use crate::symbols::Symbols;
use hp_tree::Problem;
use std::alloc::Global;

/// What a problem declares, where none of its items breaks a rule. Else the error says which item is the first that
/// breaks one, and which is the first rule that it breaks: a name that is there already (`Twice`), a level outside 1 to 16
/// (`Level`), a name that is not declared (`Unknown`), a wrong number of arguments (`Arity`), a term of a wrong sort
/// (`Mismatch`). `Memory` comes where memory is short.
/// Asks for fewer than 2^28 declarations and clauses together.
#[tactic(auto, using(crate::proofs::Walking::count_constants, crate::proofs::Walking::count_functions))]
pub fn check(alloc: Global, p: &Problem) -> Result<Symbols, SortErr>
    requires { length p.now.decls + length p.now.clauses < 2 ^ 28 }
    ensures { Answers (sort_fault p.now) (λ found. found ≡ symbols p.now.decls) result }
{
    let tables = declare_all(alloc, p.decls.as_slice())?;
    let before = p.decls.len() as u32;
    check_clauses(alloc, &tables, before, p.clauses.as_slice())?;
    Ok(Symbols::new(tables))
}
