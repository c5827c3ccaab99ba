//! Laws of problems in which no item breaks a rule. None has a cause to fail: nothing is computed.

ghost use Rattle.hp_sorts.specs.Laws.{FaultlessProblemsAreWellSorted, NothingElseIsFound, ScopesSayWhatIsDeclared, SignaturesAreFound, VariablesWidenScopes};

/// Where no item breaks a rule, no name is declared twice, functions have levels from 1 to 16, variables have fresh
/// names, and each atom has known names, applications with as many arguments as declared, and terms of its sort.
pub fn faultless_problems_are_well_sorted()
    ensures { FaultlessProblemsAreWellSorted }
{}

/// The scope of a clause gives each constant and each variable its sort and each function its profile.
pub fn scopes_say_what_is_declared()
    ensures { ScopesSayWhatIsDeclared }
{}

/// The scope of a clause says all that the declarations say alone: what is sorted over these stays sorted.
pub fn variables_widen_scopes()
    ensures { VariablesWidenScopes }
{}

/// Each declared function has the signature that is found for it.
pub fn signatures_are_found()
    ensures { SignaturesAreFound }
{}

/// Each sort that is found for a constant and each signature that is found for a function is declared so.
pub fn nothing_else_is_found()
    ensures { NothingElseIsFound }
{}
