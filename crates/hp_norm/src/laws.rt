//! What names, lines and flat clauses say of the values of terms. None of these laws has a cause to fail: they speak of all
//! problems, and nothing is computed.

ghost use Rattle.hp_norm.specs.Flat.{FlatteningSays};
ghost use Rattle.hp_norm.specs.Laws.{AtomsAreNamed, AtomsMakeOnly, ClausesHoldAtOnce, ClausesNeedConstantsAlone, DefinitionsAreFound};

/// The ground set of a problem begins with its declared names, its lines are true exactly where the clauses without
/// variables are, and each other clause has a flat clause, which is sorted and true at the same values of the variables.
pub fn flattening_says()
    ensures { FlatteningSays }
{}

/// Atoms over the names of a ground set become atoms without applications, where each argument that is an index has small
/// numbers: they keep their sorts and their truth in each ground set that grows from there, and the numbers of no side grow.
pub fn atoms_are_named()
    ensures { AtomsAreNamed }
{}

/// While atoms are named, each application that gets a new definition is one of a function that the atoms apply.
pub fn atoms_make_only()
    ensures { AtomsMakeOnly }
{}

/// The definition of a function at arguments is found where it is there, and nothing is added.
pub fn definitions_are_found()
    ensures { DefinitionsAreFound }
{}

/// Each clause of a problem has the same truth at the same values of its variables in all environments that give the
/// declared constants the same values.
pub fn clauses_need_constants_alone()
    ensures { ClausesNeedConstantsAlone }
{}

/// A clause without variables holds at all values of its variables exactly where it is true at the empty list of values.
pub fn clauses_hold_at_once()
    ensures { ClausesHoldAtOnce }
{}
