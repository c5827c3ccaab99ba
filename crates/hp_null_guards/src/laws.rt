//! What clauses over fields that keep the rules say of the pointers in them.

ghost use Rattle.hp_null_guards.specs.Laws.{GuardedSidesAreGood, NullGuardsAreFound};

/// What the test for a null guard finds is one, and where a clause keeps the rules, each pointer that a field gives and that
/// is read further is known not to be null where the clause is false.
pub fn guarded_sides_are_good()
    ensures found { NullGuardsAreFound }
    ensures good { GuardedSidesAreGood }
{}
