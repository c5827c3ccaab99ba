//! The reserved words and the signs.

ghost use Rattle.std.specs.Prelude.{◌≡◌, ◌≤◌, length, IfSome};
ghost use Rattle.hp_text.specs.Words.{word_kind, sign_of};

use crate::token::Kind;

/// The kind of a word, a letter with name bytes behind it: a reserved word where it is one, and else a name.
pub(crate) fn kind_of_word(word: &[u8]) -> Kind
    ensures { result ≡ word_kind word.now }
{
    if word == b"profile".as_slice() {
        Kind::Profile
    } else if word == b"const".as_slice() {
        Kind::Const
    } else if word == b"fun".as_slice() {
        Kind::Fun
    } else if word == b"level".as_slice() {
        Kind::Level
    } else if word == b"clause".as_slice() {
        Kind::Clause
    } else if word == b"query".as_slice() {
        Kind::Query
    } else if word == b"num".as_slice() {
        Kind::Num
    } else if word == b"idx".as_slice() {
        Kind::Idx
    } else if word == b"ptr".as_slice() {
        Kind::Ptr
    } else if word == b"null".as_slice() {
        Kind::Null
    } else if word == b"false".as_slice() {
        Kind::False
    } else {
        Kind::Name
    }
}

/// The kind and the length of the sign at the front, the longest one.
pub(crate) fn sign_at(bytes: &[u8]) -> Option<(Kind, usize)>
    ensures sign { result ≡ sign_of bytes.now }
    ensures within { IfSome result (λ s. s.1 ≤ length bytes.now) }
{
    match bytes {
        [b'<', b'=', ..] => Some((Kind::LessEq, 2)),
        [b'!', b'=', ..] => Some((Kind::NotEqual, 2)),
        [b'>', b'=', ..] => Some((Kind::GreaterEq, 2)),
        [b'-', b'>', ..] => Some((Kind::Arrow, 2)),
        [b'<', ..] => Some((Kind::Less, 1)),
        [b'=', ..] => Some((Kind::Equal, 1)),
        [b'>', ..] => Some((Kind::Greater, 1)),
        [b'&', ..] => Some((Kind::And, 1)),
        [b'|', ..] => Some((Kind::Or, 1)),
        [b'(', ..] => Some((Kind::OpenRound, 1)),
        [b')', ..] => Some((Kind::CloseRound, 1)),
        [b'[', ..] => Some((Kind::OpenSquare, 1)),
        [b']', ..] => Some((Kind::CloseSquare, 1)),
        [b',', ..] => Some((Kind::Comma, 1)),
        [b':', ..] => Some((Kind::Colon, 1)),
        [b';', ..] => Some((Kind::Semicolon, 1)),
        [b'+', ..] => Some((Kind::Plus, 1)),
        [b'-', ..] => Some((Kind::Minus, 1)),
        [b'*', ..] => Some((Kind::Star, 1)),
        [b'/', ..] => Some((Kind::Slash, 1)),
        _ => None,
    }
}
