//! What the lines of a group say, and what its frame has. None of these laws has a cause to fail: they speak of all ground
//! sets, and nothing is computed.

ghost use Rattle.hp_class.specs.Laws.{ClausesHoldWithPoints, ClausesPass, FactsAreCongruent, FlatClausesStay, GroupMakesOnly, GroupSays, OwnFactsArePoints, PointsStay, TuplesStay, TurnsAreModelled};

/// The lines of a group are true exactly where its clauses are at the tuples of its plan, where definitions have the values
/// of their bodies; and at all values where they are true equal arguments of an own function have equal values.
pub fn group_says()
    ensures { GroupSays }
{}

/// A clause that applies functions of these words alone applies functions at their places alone.
pub fn clauses_pass()
    ensures { ClausesPass }
{}

/// The lines of a group make applications of functions that its clauses apply, and of no other ones.
pub fn group_makes_only()
    ensures { GroupMakesOnly }
{}

/// Where the lines of a group are true and equal arguments have equal values, its clauses are true at the tuples of its plan,
/// whatever functions have the points of those that the clauses apply.
pub fn clauses_hold_with_points()
    ensures { ClausesHoldWithPoints }
{}

/// Where all lines are true in the end, and no application of an own function was made after the turn of a group, what the
/// group has made is what the law of its class asks for.
pub fn turns_are_modelled()
    ensures { TurnsAreModelled }
{}

/// The points of a function in a frame are those of its applications, in the order of their making.
pub fn own_facts_are_points()
    ensures { OwnFactsArePoints }
{}

/// The applications of a function stay while no definition is made that applies it.
pub fn points_stay()
    ensures { PointsStay }
{}

/// The points of a frame are congruent where equal arguments of each function have equal values.
pub fn facts_are_congruent()
    ensures { FactsAreCongruent }
{}

/// Flat clauses stay so while names grow, and arguments for their variables still fit.
pub fn plans_stay()
    ensures clauses { FlatClausesStay }
    ensures tuples { TuplesStay }
{}
