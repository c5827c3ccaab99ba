//! Why a problem has no ground set.

use hp_lit::GroundErr;
use hp_pairs::{Outside, PairErr, PairStrain};
use hp_rules::RuleErr;
use hp_tree::Limit;
use std::alloc::AllocError;

/// Why a problem has no groups, or no ground set.
#[derive(Drop)]
pub enum ChainErr {
    /// The first clause that breaks a rule, by itself or with another one.
    Outside(Outside),
    /// The limit that is passed first.
    Limit(Limit),
    /// A number passes 2^127 - 1 over the rows of two clauses.
    Strain(PairStrain),
    /// Memory was wanting.
    Memory,
}

impl From<AllocError> for ChainErr {
    ghost use Rattle.std.specs.Prelude.{◌≡◌};
    ghost use Rattle.hp_chain.specs.declared.answer.ChainErr.TheVariants.{Memory};

    ghost from_gives = { λ _ e. e ≡ Memory };

    fn from(_error: AllocError) -> ChainErr {
        ChainErr::Memory
    }
}

impl From<GroundErr> for ChainErr {
    ghost use Rattle.std.specs.Prelude.{◌≡◌};
    ghost use Rattle.hp_chain.specs.Ground.{refusal_from};

    ghost from_gives = { λ error e. e ≡ refusal_from error };

    fn from(error: GroundErr) -> ChainErr {
        match error {
            GroundErr::Limit(limit) => ChainErr::Limit(limit),
            GroundErr::Memory => ChainErr::Memory,
        }
    }
}

impl From<RuleErr> for ChainErr {
    ghost use Rattle.std.specs.Prelude.{◌≡◌};
    ghost use Rattle.hp_chain.specs.Ground.{refused_by};

    ghost from_gives = { λ error e. e ≡ refused_by error };

    fn from(error: RuleErr) -> ChainErr {
        match error {
            RuleErr::Outside(outside) => ChainErr::Outside(outside),
            RuleErr::Limit(limit) => ChainErr::Limit(limit),
            RuleErr::Memory => ChainErr::Memory,
        }
    }
}

impl From<PairErr> for ChainErr {
    ghost use Rattle.std.specs.Prelude.{◌≡◌};
    ghost use Rattle.hp_chain.specs.Ground.{met_by};

    ghost from_gives = { λ error e. e ≡ met_by error };

    fn from(error: PairErr) -> ChainErr {
        match error {
            PairErr::Outside(outside) => ChainErr::Outside(outside),
            PairErr::Strain(strain) => ChainErr::Strain(strain),
            PairErr::Memory => ChainErr::Memory,
        }
    }
}
