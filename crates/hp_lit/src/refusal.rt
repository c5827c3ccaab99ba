//! Why a computation over a problem gives nothing.
use hp_tree::Limit;
use std::alloc::AllocError;

/// A number of the computation has a magnitude above its limit, or memory is short.
#[derive(Clone, Copy)]
pub enum Refusal {
    Wide,
    Memory,
}

/// The limit of ground problems that is passed first in the order of making, or memory is short.
#[derive(Clone, Copy)]
pub enum GroundErr {
    Limit(Limit),
    Memory,
}

impl From<AllocError> for Refusal {
    ghost use Rattle.std.specs.Prelude.{◌≡◌};
    ghost use Rattle.hp_lit.specs.declared.refusal.Refusal.TheVariants.{Memory};

    ghost from_gives = { λ _ e. e ≡ Memory };

    fn from(_error: AllocError) -> Refusal {
        Refusal::Memory
    }
}

impl From<AllocError> for GroundErr {
    ghost use Rattle.std.specs.Prelude.{◌≡◌};
    ghost use Rattle.hp_lit.specs.declared.refusal.GroundErr.TheVariants.{Memory};

    ghost from_gives = { λ _ e. e ≡ Memory };

    fn from(_error: AllocError) -> GroundErr {
        GroundErr::Memory
    }
}
