//! Rows of whole coefficients with a bound, decided over the fractions by dimension descent.
//!
//! `descend` answers a point at which every row holds, a combination of the rows that contradicts them, or the first
//! number that passes 2^127 - 1 on a stated way.
#![tactic(auto)]

ghost use Rattle.hp_rows.specs.Laws.{ChainIsPositive, ContradictionsRefute, PointsAreExact, PointsMeetChains};

mod answer;
mod chain;
mod coordinates;
mod descent;
mod division;
mod fractions;
mod line;
mod row;

pub use answer::{Answer, Located, Place, Strain};
pub use chain::locate;
pub use coordinates::values;
pub use descent::descend;
pub use line::Fail;
pub use row::{Row, are_wide};

/// In a combination that contradicts the rows of a chain, the rows of the chain have positive multipliers.
pub fn chain_is_positive()
    ensures { ChainIsPositive }
{}

/// The point that is computed for a chain is the exact one.
pub fn points_are_exact()
    ensures { PointsAreExact }
{}

/// The point of a chain makes its rows true as equations.
pub fn points_meet_chains()
    ensures { PointsMeetChains }
{}

/// A combination that contradicts the rows leaves no values at which all of them hold.
pub fn contradictions_refute()
    ensures { ContradictionsRefute }
{}
