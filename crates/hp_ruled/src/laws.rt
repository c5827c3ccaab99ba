//! What the rules give the classes of functions.

ghost use Rattle.hp_ruled.specs.Laws.{ArraysAreClauses, ArraysAreGroups, ArraysAreKnown, BranchesAreFit, CasesAreFromClauses, CasesAreOwn, ClausesAreRead, ClausesHaveArrays, FunctionsAreByCases, MonotoneClausesAreOnce};

/// The rows of cases can be decided. Where no pair is met, each function with a clause of a case is by its cases. Each clause has
/// monotone shape, or is one of a case once it is flattened, or is over arrays, and each clause of a case is a flattened one. A
/// function with a clause of monotone shape has no other one. The arrays of a level that clauses apply are a group with these
/// clauses.
pub fn ruled_clauses_have_classes()
    ensures fit { BranchesAreFit }
    ensures cases { FunctionsAreByCases }
    ensures read { ClausesAreRead }
    ensures from { CasesAreFromClauses }
    ensures own { CasesAreOwn }
    ensures once { MonotoneClausesAreOnce }
    ensures arrays { ArraysAreClauses }
    ensures known { ArraysAreKnown }
    ensures groups { ArraysAreGroups }
    ensures levels { ClausesHaveArrays }
{}
