//! What ties the ground set of a problem to the structures of the problem. None of these laws has a cause to fail: they
//! speak of all problems, and nothing is computed.

ghost use Rattle.hp_chain.specs.Laws.{GroundSetsAreFit, StructuresGiveValues, ValuesGiveAStructure};

/// Every literal of the ground set of a problem can be decided.
pub fn ground_sets_are_fit()
    ensures { GroundSetsAreFit }
{}

/// A structure that satisfies a problem gives values of the names' sorts at which all lines of the ground set are true.
pub fn structures_give_values()
    ensures { StructuresGiveValues }
{}

/// Values of the names' sorts at which all lines of the ground set are true give a structure that satisfies the problem:
/// its pointers are the values by rank, and each function has a table through its applications.
pub fn values_give_a_structure()
    ensures { ValuesGiveAStructure }
{}
