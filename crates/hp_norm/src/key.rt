//! Keys of terms: lists of whole numbers, equal for equal terms and for no others.

ghost use Rattle.std.specs.Prelude.{◌≡◌, ◌++◌, map, pos, IfOk, OnOk};
ghost use Rattle.hp_norm.specs.TermKeys.{list_key, number_key, term_key, word_key};

use hp_num::{Frac, List, Text};
use hp_tree::Term;
use std::alloc::{AllocError, Global};

/// The key of a term: its kind, and then its words, numbers and parts from left to right.
pub fn key_of(alloc: Global, term: &Term) -> Result<Vec<i128>, AllocError>
    ensures { IfOk result (λ key. key.items ≡ term_key term.now) }
{
    let mut key = Vec::new(alloc);
    put_key(&mut key, term)?;
    Ok(key)
}

/// Puts the key of a term behind what is there.
#[cycle(put_key)]
fn put_key(key: &mut Vec<i128>, term: &Term) -> Result<(), AllocError>
    ensures { OnOk result (key.new.items ≡ key.old.items ++ term_key term.now) }
{
    match term {
        Term::Number(number) => {
            key.push(0)?;
            put_number(key, *number)
        }
        Term::Null => {
            key.push(1)?;
            Ok(())
        }
        Term::Name(word) => {
            key.push(2)?;
            put_word(key, word)
        }
        Term::Apply { func, args } => {
            key.push(3)?;
            put_word(key, func)?;
            put_keys(key, args.as_slice())
        }
        Term::Add(left, right) => {
            key.push(4)?;
            put_key(key, left.get())?;
            put_key(key, right.get())
        }
        Term::Sub(left, right) => {
            key.push(5)?;
            put_key(key, left.get())?;
            put_key(key, right.get())
        }
        Term::Neg(inner) => {
            key.push(6)?;
            put_key(key, inner.get())
        }
        Term::Scale(number, inner) => {
            key.push(7)?;
            put_number(key, *number)?;
            put_key(key, inner.get())
        }
    }
}

/// Puts the keys of these terms behind what is there, with a 1 before each and a 0 behind the last.
#[cycle(put_key)]
fn put_keys(key: &mut Vec<i128>, terms: &[Term]) -> Result<(), AllocError>
    ensures { OnOk result (key.new.items ≡ key.old.items ++ list_key (map term_key terms.now)) }
{
    for term in terms {
        key.push(1)?;
        put_key(key, term)?;
    }
    key.push(0)?;
    Ok(())
}

/// Puts the numerator and the denominator of a number behind what is there.
fn put_number(key: &mut Vec<i128>, number: Frac) -> Result<(), AllocError>
    ensures { OnOk result (key.new.items ≡ key.old.items ++ number_key number) }
{
    key.push(number.num())?;
    key.push(number.den())?;
    Ok(())
}

/// Puts the length of a word and its bytes behind what is there.
fn put_word(key: &mut Vec<i128>, word: &Text) -> Result<(), AllocError>
    ensures { OnOk result (key.new.items ≡ key.old.items ++ word_key word.now) }
{
    key.push(word.as_slice().len() as i128)?;
    put_bytes(key, word.as_slice())
}

/// Puts bytes behind what is there.
fn put_bytes(key: &mut Vec<i128>, bytes: &[u8]) -> Result<(), AllocError>
    ensures { OnOk result (key.new.items ≡ key.old.items ++ map pos bytes.now) }
{
    for byte in bytes {
        key.push(*byte as i128)?;
    }
    Ok(())
}
