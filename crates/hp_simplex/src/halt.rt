//! Why the simplex gives no answer.
ghost use Rattle.std.specs.Prelude.{◌≡◌};
ghost use Rattle.hp_simplex.specs.declared.halt.Halt.TheVariants.{Memory, Unknown};

use hp_num::Wide;
use std::alloc::{AllocError, AllocFailed};

/// A number passes 2^127 - 1 or too many pivots were made, or memory was wanting.
#[derive(Drop)]
pub enum Halt {
    Unknown,
    Memory,
}

impl From<AllocError> for Halt {
    ghost from_gives = { λ _ e. e ≡ Memory };

    fn from(_error: AllocError) -> Halt {
        Halt::Memory
    }
}

impl<T: Drop> From<AllocFailed<T>> for Halt {
    ghost from_gives = { λ _ e. e ≡ Memory };

    fn from(_error: AllocFailed<T>) -> Halt {
        Halt::Memory
    }
}

impl From<Wide> for Halt {
    ghost from_gives = { λ _ e. e ≡ Unknown };

    fn from(_wide: Wide) -> Halt {
        Halt::Unknown
    }
}
