//! Tokens with what they say.

ghost use Rattle.std.specs.Prelude.{◌≡◌, ◌≤◌, length, IfOk};
ghost use Rattle.hp_text.specs.Numeral.{IsNumeral};
ghost use Rattle.hp_text.specs.Placed.{text_of};
ghost use Rattle.hp_text.specs.declared.token.Kind.TheVariants.{Numeral};
ghost use Rattle.hp_grammar.specs.Token.{same as same_kind};
ghost use Rattle.hp_grammar.specs.Symbols.{symbol_of};

use hp_num::Text;
use hp_text::{Kind, Token, numeral};
use std::alloc::{AllocError, Global};

/// A token without its place.
#[derive(Drop)]
pub enum Symbol {
    /// A reserved word or a sign.
    Word(Kind),
    Name(Text),
    /// The value of a numeral.
    Numeral(u64),
}

/// Whether the two kinds are one.
#[tactic(auto, unfolding(crate::specs::Token::same))]
pub fn same(kind: Kind, wanted: Kind) -> bool
    ensures { result ≡ same_kind kind wanted }
{
    kind == wanted
}

/// The token with what it says.
pub fn symbol_at(alloc: Global, bytes: &[u8], token: Token) -> Result<Symbol, AllocError>
    requires order { token.start ≤ token.end }
    requires within { token.end ≤ length bytes.now }
    requires numeral { token.kind ≡ Numeral → IsNumeral (text_of bytes.now token) }
    ensures { IfOk result (λ s. s ≡ symbol_of bytes.now token) }
{
    let text = &bytes[token.start..token.end];
    if same(token.kind, Kind::Name) {
        Ok(Symbol::Name(Text::from_slice(alloc, text)?))
    } else if same(token.kind, Kind::Numeral) {
        let value = numeral(text);
        Ok(Symbol::Numeral(value as u64))
    } else {
        Ok(Symbol::Word(token.kind))
    }
}
