//! Literals, lines and valuations, when a literal is true, and the parts of the evidence against literals.
#![tactic(auto)]

ghost use Rattle.hp_lit.specs.Cycle.{NoIdxLeaf};
ghost use Rattle.hp_lit.specs.Leaf.{NoNumLeaf};

mod limited;
mod line;
mod literal;
mod proof;
mod refusal;
mod valuation;

pub use limited::{coefficient, many_lines, many_names};
pub use line::{Arg, Body, Def, Lin, LinPart, Line, Origin};
pub use literal::{IdxLit, Lit, Name, NumLit, Part, PtrLit, Rel};
pub use proof::{Choice, Share, Step};
pub use refusal::{GroundErr, Refusal};
pub use valuation::{NameValue, Valuation};

/// No values make all literals true over which a leaf of multipliers is valid.
pub fn no_num_leaf()
    ensures { NoNumLeaf }
{}

/// No values make all literals true over which a leaf of steps is valid.
pub fn no_idx_leaf()
    ensures { NoIdxLeaf }
{}
