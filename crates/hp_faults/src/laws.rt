//! A law of the definitions. It has no cause to fail: it speaks of every text, and nothing is computed.

ghost use Rattle.hp_faults.specs.Laws.{OneFault};

/// A text has one fault at most, want of memory aside.
pub fn one_fault()
    ensures { OneFault }
{}
