//! What flattened clauses say.

ghost use Rattle.hp_flatten.specs.Laws.{FlattenedHasOne, FlattenedHolds, FlattenedIsFlat};

/// A flattened clause is flat, holds exactly where its source does, and has one application, at the words of arguments.
pub fn flattened_clauses_say_the_same()
    ensures holds { FlattenedHolds }
    ensures flat { FlattenedIsFlat }
    ensures one { FlattenedHasOne }
{}
