//! The law of printing. It has no cause to fail: it speaks of every text, and nothing is computed.

ghost use Rattle.hp_roundtrip.specs.Law.{PrintedTextSpells};

/// Where some text spells a problem, the printed text of the problem spells it too.
pub fn printed_text_spells()
    ensures { PrintedTextSpells }
{}
