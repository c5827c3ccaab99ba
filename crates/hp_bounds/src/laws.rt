//! Laws of the grammar. None has a cause to fail: they speak of every text, and nothing is computed.

ghost use Rattle.hp_bounds.specs.Laws.{FewItems, LightNumbers, PlainArguments, PlainNames, PlainVariables, ShallowTerms};

/// A problem has no more declarations and clauses together than any text that spells it has bytes.
pub fn few_items()
    ensures { FewItems }
{}

/// The numbers of each atom of a problem that a text of at most 1,048,576 bytes spells stay below 2*10^24 together:
/// the magnitudes of the numerators on both sides, those in arguments and those that multiply too, add up to less.
pub fn light_numbers()
    ensures { LightNumbers }
{}

/// A name that a problem declares is no word of a definition, that is none of `_1`, `_2` and so on, where some text spells
/// the problem: a name begins with a letter. For the same reason it is no word of an argument in a table either, that is none
/// of `$1` to `$4`. No variable is a word of a definition either.
pub fn plain_names()
    ensures names { PlainNames }
    ensures arguments { PlainArguments }
    ensures variables { PlainVariables }
{}

/// The terms of a problem that some text spells are less than 1,300 deep, whatever the text's length: a number, null and a name
/// are 1 deep, and any other term is one deeper than the deepest of its parts. What recurses by a term that was read recurses no deeper.
pub fn shallow_terms()
    ensures { ShallowTerms }
{}
