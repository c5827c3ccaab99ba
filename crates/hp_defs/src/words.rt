//! The words of definitions, and lists of items beside an index of their words.
ghost use Rattle.std.specs.Prelude.{◌≡◌, [], ◌∷◌, ◌++◌, false, IfOk, OnOk, OnErr};
ghost use Rattle.hp_terms.specs.Words.{made_word};
ghost use Rattle.hp_names.specs.Names.{is_among};

use hp_names::NameIndex;
use hp_num::{List, Text};
use itoa::Buffer;
use std::alloc::{AllocError, Global};

/// The word of the definition with this number, counted from 1: `_` and the number.
pub fn word_of(alloc: Global, number: u64) -> Result<Text, AllocError>
    ensures { IfOk result (λ word. word ≡ made_word number) }
{
    let mut word = Text::from_slice(alloc, b"_")?;
    let mut buffer = Buffer::new();
    word.extend_from_slice(buffer.format(number).as_bytes())?;
    Ok(word)
}

/// Adds an item, and its word, which there is not yet. At `Err` both are as before.
pub fn push_named<T: Drop>(
    alloc: Global,
    items: &mut List<T>,
    index: &mut NameIndex,
    item: T,
    word: &[u8],
) -> Result<(), AllocError>
    requires { is_among word.now index.old ≡ false }
    ensures added { OnOk result (items.new ≡ items.old ++ item ∷ []) }
    ensures indexed { OnOk result (index.new ≡ index.old ++ word.now ∷ []) }
    ensures unchanged { OnErr result (items.new ≡ items.old) }
    ensures unindexed { OnErr result (index.new ≡ index.old) }
{
    items.push(item)?;
    match index.insert(alloc, word) {
        Ok(_) => Ok(()),
        Err(error) => {
            items.pop();
            Err(error)
        }
    }
}
