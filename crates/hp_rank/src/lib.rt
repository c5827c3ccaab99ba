//! Values of pointers by rank: whole numbers from 0 without a gap, those of a universe in front.
#![tactic(auto)]

ghost use Rattle.hp_rank.specs.Laws.{NamesHaveRanks, OtherNamesKeepValues, RanksAreInOrder, RanksKeepSorts, RanksKeepTruth};

mod numbers;
mod ranks;
mod values;

pub use ranks::ranked;
pub use values::Ranked;

/// The universe has null, of rank 0, and the values of the first names of sort ptr. Its ranks are the numbers below its
/// size, in the order of its values; another value has a rank from there on, and values that differ differ in rank.
pub fn ranks_are_in_order()
    ensures { RanksAreInOrder }
{}

/// A name of sort ptr has the rank of its value, and a name among the first has one below the size of the universe.
pub fn names_have_ranks()
    ensures { NamesHaveRanks }
{}

/// A name of another sort keeps its value.
pub fn other_names_keep_values()
    ensures { OtherNamesKeepValues }
{}

/// Ranked values are of the sorts that the values are of.
pub fn ranks_keep_sorts()
    ensures { RanksKeepSorts }
{}

/// Literals that can be decided, and lines of them, are true at ranked values exactly where they are true at the values.
pub fn ranks_keep_truth()
    ensures { RanksKeepTruth }
{}
