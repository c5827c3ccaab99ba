//! What clauses without variables say, and what values well-formed structures have. None has a cause to fail: they speak of
//! all structures, and nothing is computed.

ghost use Rattle.hp_model.specs.Laws.{DeclaredScopesKeepSorts, FunctionsHaveSorts, NoFunctionsNoTables, PlainClausesHold, TableScopesKeepSorts};

/// A clause without variables holds in a structure exactly where one of its guard atoms is false, or one of its head
/// atoms is true.
pub fn plain_clauses_hold()
    ensures { PlainClausesHold }
{}

/// In a well-formed structure each function has values of the sort of its result, at arguments of its sorts.
pub fn functions_have_sorts()
    ensures { FunctionsHaveSorts }
{}

/// In a well-formed structure all words have values of the sorts that the declarations give them.
pub fn declared_scopes_keep_sorts()
    ensures { DeclaredScopesKeepSorts }
{}

/// In a well-formed structure all words of a table have values of their sorts, at arguments of the sorts of the function.
pub fn table_scopes_keep_sorts()
    ensures { TableScopesKeepSorts }
{}

/// A structure fits a problem without functions only where it has no tables.
pub fn no_functions_no_tables()
    ensures { NoFunctionsNoTables }
{}
