//! Why bytes spell no problem.

ghost use Rattle.std.specs.Prelude.{◌≡◌};
ghost use Rattle.hp_grammar.specs.Spells.{fault_of};
ghost use Rattle.hp_grammar.specs.declared.fault.ReadErr.TheVariants.{Memory as memory};

use hp_text::TokenErr;
use std::alloc::AllocError;
use thiserror::Error;

/// Why a text isn't read. An `offset` counts bytes from 0, and the fault is the first one of the text.
#[derive(Clone, Copy, Debug, Drop, PartialEq, Eq, Error)]
pub enum ReadErr {
    /// No problem begins with the tokens up to and with the one at the offset, or the byte there begins no token;
    /// where the text ends too early, the offset is its length.
    #[error("no problem is written so at byte {offset}")]
    Syntax { offset: usize },
    /// More than 18 digits stand at the offset.
    #[error("more than 18 digits at byte {offset}")]
    LongNumeral { offset: usize },
    /// The 65th open parenthesis stands at the offset, or the 1,024th sign between the parts of one atom.
    #[error("too many parentheses or signs at byte {offset}")]
    Deep { offset: usize },
    /// Memory is short.
    #[error("out of memory")]
    Memory,
}

impl From<AllocError> for ReadErr {
    ghost from_gives = { λ _ e. e ≡ memory };

    fn from(_e: AllocError) -> ReadErr {
        ReadErr::Memory
    }
}

impl From<TokenErr> for ReadErr {
    ghost from_gives = { λ fault e. e ≡ fault_of fault };

    fn from(fault: TokenErr) -> ReadErr {
        match fault {
            TokenErr::Stray { offset } => ReadErr::Syntax { offset },
            TokenErr::LongNumeral { offset } => ReadErr::LongNumeral { offset },
        }
    }
}
