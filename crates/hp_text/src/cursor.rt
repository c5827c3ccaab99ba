//! The cursor, which goes over a text from token to token.
//! What the next token is, `next_from` says on the bytes and a place.

ghost use Rattle.std.specs.Prelude.{◌≡◌, ◌+◌, ◌≤◌, length, IfOk, IfErr};

use crate::bytes::{digit_count, is_blank_byte, is_digit_byte, is_letter_byte, name_length};
use crate::token::{Kind, Token, TokenErr};
use crate::words::{kind_of_word, sign_at};
use std::marker::Model;

/// A place in a text, from which tokens are read one after another. It borrows the text and takes no memory.
///
/// Contracts see it as the bytes of the whole text and the place that the reading has come to, counted in bytes from 0.
#[derive(Drop)]
pub struct Cursor<'a> {
    bytes: &'a [u8],
    at: usize,
}

impl<'a> Model for Cursor<'a> {
    ghost use Rattle.std.specs.Prelude.{◌≤◌, length};
    ghost use Rattle.hp_text.specs.Reading.{Reading};

    ghost Value = { Reading };

    ghost view = { λ cursor. record { bytes = cursor.bytes.now; place = cursor.at } };

    ghost invariant = { λ cursor. cursor.at ≤ length cursor.bytes.now };
}

impl<'a> Cursor<'a> {
    ghost use Rattle.std.specs.Prelude.{◌≡◌, IfOk, IfErr, OnErr};
    ghost use Rattle.hp_text.specs.Tokens.{next_from};
    ghost use Rattle.hp_text.specs.Placed.{IsPlaced, IsFaultPlaced};
    ghost use Rattle.hp_text.specs.Longest.{StandsLongest};

    /// A cursor at the beginning of a text.
    pub fn new(bytes: &'a [u8]) -> Cursor<'a>
        ensures bytes { result.bytes ≡ bytes.now }
        ensures place { result.place ≡ 0 }
    {
        Cursor { bytes, at: 0 }
    }

    /// The next token behind blanks and comments, after which the cursor stands at its end. At the end of the text it is `End`,
    /// with both places at the length.
    ///
    /// `Stray` comes where the next byte outside blanks and comments begins no token, and `LongNumeral` where more than 18 digits
    /// stand there. After an error the cursor is unchanged.
    pub fn next(&mut self) -> Result<Token, TokenErr>
        ensures token { result ≡ next_from self.old.bytes self.old.place }
        ensures moved { IfOk result (λ token. self.new.place ≡ token.end) }
        ensures bytes { self.new.bytes ≡ self.old.bytes }
        ensures unchanged { OnErr result (self.new ≡ self.old) }
        ensures placed { IfOk result (IsPlaced self.old.bytes self.old.place) }
        ensures fault { IfErr result (IsFaultPlaced self.old.bytes self.old.place) }
        ensures longest { StandsLongest self.old.bytes result }
    {
        let token = token_from(self.bytes, self.at)?;
        self.at = token.end;
        Ok(token)
    }
}

ghost use Rattle.hp_text.specs.Tokens.{next_from, gap, front, token as make, numeral_of};
ghost use Rattle.hp_text.specs.Placed.{IsPlaced, IsFaultPlaced};

/// The next token of a text from a place on.
#[tactic(auto, using(crate::proofs::Fronts::next_placed, crate::proofs::Fronts::fault_placed))]
fn token_from(bytes: &[u8], at: usize) -> Result<Token, TokenErr>
    requires { at ≤ length bytes.now }
    ensures token { result ≡ next_from bytes.now at }
    ensures placed { IfOk result (IsPlaced bytes.now at) }
    ensures fault { IfErr result (IsFaultPlaced bytes.now at) }
{
    let (_, rest) = bytes.split_at(at);
    let start = at + gap_length(rest);
    let (_, tail) = bytes.split_at(start);
    front_token(start, tail)
}

/// How many bytes of blanks and comments stand at the front.
fn gap_length(bytes: &[u8]) -> usize
    ensures length { result ≡ gap bytes.now }
    ensures within { result ≤ length bytes.now }
{
    let mut in_comment = false;
    for (i, b) in bytes.iter().enumerate() {
        if in_comment {
            in_comment = *b != b'\n';
        } else if *b == b'#' {
            in_comment = true;
        } else if !is_blank_byte(*b) {
            return i;
        }
    }
    bytes.len()
}

/// The token at the front of bytes that begin at the place `start` of a text, with no blank and no comment.
fn front_token(start: usize, bytes: &[u8]) -> Result<Token, TokenErr>
    requires { start + length bytes.now ≤ usize.MAX }
    ensures token { result ≡ front start bytes.now }
    ensures within { IfOk result (λ t. t.end ≤ start + length bytes.now) }
{
    match bytes.first() {
        None => Ok(token(Kind::End, start, 0)),
        Some(first) => {
            if is_letter_byte(*first) {
                let length = name_length(bytes);
                let (word, _) = bytes.split_at(length);
                Ok(token(kind_of_word(word), start, length))
            } else if is_digit_byte(*first) {
                numeral_token(start, digit_count(bytes))
            } else {
                match sign_at(bytes) {
                    None => Err(TokenErr::Stray { offset: start }),
                    Some((kind, length)) => Ok(token(kind, start, length)),
                }
            }
        }
    }
}

/// A token of this kind and length.
fn token(kind: Kind, start: usize, length: usize) -> Token
    requires { start + length ≤ usize.MAX }
    ensures { result ≡ make start kind length }
{
    Token {
        kind,
        start,
        end: start + length,
    }
}

/// A numeral of so many digits, unless they are too many.
fn numeral_token(start: usize, digits: usize) -> Result<Token, TokenErr>
    requires { start + digits ≤ usize.MAX }
    ensures { result ≡ numeral_of start digits }
{
    if digits <= 18 {
        Ok(token(Kind::Numeral, start, digits))
    } else {
        Err(TokenErr::LongNumeral { offset: start })
    }
}
