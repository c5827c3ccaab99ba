//! The limit that is passed where a number is too wide.

ghost use Rattle.hp_linear.specs.Steps.{Refusable};
ghost use Rattle.hp_linear.specs.Answers.{Answers};
ghost use Rattle.hp_defs.specs.declared.names.Ground.{Ground};
ghost use Rattle.hp_base.specs.Making.{Makes, computed};

use hp_lit::{GroundErr, Refusal, coefficient};

/// The value of a computation with the numbers of an item, counted from 1. Where one of them is too wide, the error is the
/// limit on coefficients, with the item.
pub fn computed<T>(item: u32, answer: Result<T, Refusal>) -> Result<T, GroundErr>
    ensures { (wanted : Refusable T) (g : Ground) → Answers wanted answer → Makes (computed item wanted) g g result }
{
    match answer {
        Ok(value) => Ok(value),
        Err(Refusal::Wide) => Err(GroundErr::Limit(coefficient(item))),
        Err(Refusal::Memory) => Err(GroundErr::Memory),
    }
}
