//! The names of words.

ghost use Rattle.std.specs.Prelude.{◌≡◌, ◌<◌, ◌^◌, length};
ghost use Rattle.hp_lit.specs.Words.{number};

use hp_lit::Name;
use hp_names::NameIndex;

/// The name that a word stands for, by its place among the words.
pub fn name_of(index: &NameIndex, word: &[u8]) -> Option<Name>
    requires { length index.now < 2 ^ 28 }
    ensures { result ≡ number index.now word.now }
{
    match index.position(word) {
        Some(at) => Some(Name(at as u32)),
        None => None,
    }
}
