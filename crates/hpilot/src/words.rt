//! The words of the command line.

use std::env;
use std::io::ErrorKind;

/// Why the words of the command line can't be had.
#[derive(Clone, Copy, Debug, PartialEq, Eq)]
pub enum WordsErr {
    /// Memory is short.
    Memory,
    /// The system refuses the words, or one of them isn't UTF-8.
    Refused,
}

/// The command line without the program's name.
pub fn words(rt: &HostRuntime) -> Result<Vec<String>, WordsErr> {
    match env::args(rt) {
        Ok(args) => {
            let mut words = Vec::new(rt.alloc());
            for word in args.skip(1) {
                if words.push(word).is_err() {
                    return Err(WordsErr::Memory);
                }
            }
            Ok(words)
        }
        Err(e) if e.kind() == ErrorKind::OutOfMemory => Err(WordsErr::Memory),
        Err(_) => Err(WordsErr::Refused),
    }
}
