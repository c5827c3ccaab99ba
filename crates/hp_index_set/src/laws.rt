//! What index sets have, and how long they stay. None of these laws has a cause to fail: they speak of all names and clauses,
//! and nothing is computed.

ghost use Rattle.hp_index_set.specs.Laws.{AppliedAreIndexes, BoundsAreIndexes, IndexSetsStay, IndexesAreSmall, PassesCover, ThereAreIndexes};

/// The arguments of applications and the bounds of guards are in the index set, which is not empty.
pub fn index_sets_have()
    ensures applied { AppliedAreIndexes }
    ensures bounds { BoundsAreIndexes }
    ensures some { ThereAreIndexes }
{}

/// An index set stays while definitions are added whose applications of own functions go along it: each once, the arguments of
/// all these applications are its first entries.
pub fn index_sets_stay()
    ensures { IndexSetsStay }
{}

/// The entries of an index set are no names, or names of sort idx, plus whole numbers of a magnitude of at most 2 * 10^24, where
/// the own functions have one argument, an index.
pub fn indexes_are_small()
    ensures { IndexesAreSmall }
{}

/// Once an own function is applied at each entry of an index set, in their order, the arguments of all applications of own
/// functions are the index set, where the own functions have one argument, an index.
pub fn passes_cover()
    ensures { PassesCover }
{}
