//! What the lines of clauses at arguments say. None of these laws has a cause to fail: they speak of all clauses and
//! arguments, and nothing is computed.

ghost use Rattle.hp_instance.specs.Laws.{ArgumentsComeBack, InstancesSay, PlainTuplesFit};

/// Arguments of the sorts of the variables, with whole numbers of a magnitude of at most 2 * 10^24, fit a flat clause in which
/// each argument that is an index is a variable alone or has none.
pub fn plain_tuples_fit()
    ensures { PlainTuplesFit }
{}

/// The line of a flat clause at arguments that fit is true exactly where the clause is at their values, where names have
/// values of their sorts, words the values of their names, and definitions those of their bodies. What was there before still
/// is, and the ground set stays sound.
pub fn instances_say()
    ensures { InstancesSay }
{}

/// The term of an argument of a sort is that argument again where it stands as one, and nothing is made.
pub fn arguments_come_back()
    ensures { ArgumentsComeBack }
{}
