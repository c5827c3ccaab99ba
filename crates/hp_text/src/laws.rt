//! Laws of the definitions, each the contract of a function that does nothing.

ghost use Rattle.std.specs.Prelude.{ℕ, List, Result};
ghost use Rattle.hp_text.specs.declared.token.Token.{Token};
ghost use Rattle.hp_text.specs.declared.token.TokenErr.{TokenErr};
ghost use Rattle.hp_text.specs.Lexes.{HasOneLexing, Lexes, AreSaid, all_said};

/// Every text has one list of tokens, and one end or first fault behind it.
pub fn one_list_of_tokens()
    ensures { (bytes : List ℕ) → HasOneLexing bytes }
{}

/// What the tokens of a text say is reserved words and signs, names, and numbers of at most 18 digits.
pub fn tokens_say_words()
    ensures { (bytes : List ℕ) (tokens : List Token) (last : Result Token TokenErr) → Lexes bytes tokens last → AreSaid (all_said bytes tokens) }
{}
