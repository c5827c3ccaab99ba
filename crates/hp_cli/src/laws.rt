//! Laws of the answers. They have no cause to fail: they speak of every input, and nothing is computed.

ghost use Rattle.hp_cli.specs.Laws.{OneAnswer, OnlyAnswer};

/// Whether words and input are answered by the usage, by a refusal or by a printed text, and by which, is determined by
/// them: where such an answer is right, no other answer is. So each of these answers comes exactly where its cause
/// holds, unless a stream fails or memory is wanting.
///
/// One freedom is left where cases of functions are tested with each other: two cases that break a rule may be shown at any
/// point at which they do, and in place of such a pair, and of a limit that comes later, a number that is too wide over that
/// pair or one before it may be told.
pub fn one_answer()
    ensures one { OneAnswer }
    ensures only { OnlyAnswer }
{}
