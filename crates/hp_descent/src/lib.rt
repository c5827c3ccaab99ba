//! Literals over fractions, decided by dimension descent over their rows.
//!
//! `decide` answers values at which every literal is true, a combination of the literals that adds to nothing below 0,
//! or the first number that passes 2^127 - 1 on a stated way.
#![tactic(auto)]

ghost use Rattle.hp_descent.specs.Laws.{ColumnsAreNames};

mod answer;
mod chained;
mod columns;
mod decision;
mod fit;
mod rows;
mod shares;
mod sums;

pub use answer::{
    At, ChainAnswer, DescentErr, Form, NumAnswer, Place, RowStrain, Solution, Strain,
};
pub use chained::value_at;
pub use columns::columns_of;
pub use decision::{decide, decide_chain};
pub use fit::are_fit;
pub use sums::{compare, holds, holds_among};

/// The columns of literals are the names that occur in them, each once, in rising order.
pub fn columns_are_names()
    ensures { ColumnsAreNames }
{}
