//! What the descent over literals answers, and why it may give no answer.

ghost use Rattle.std.specs.Prelude.{◌≡◌};
ghost use Rattle.hp_descent.specs.declared.answer.DescentErr.TheVariants.{Memory as memory};

use hp_lit::{Choice, NameValue, Share, Valuation};
use hp_num::{List, Wide};
use std::alloc::AllocError;

/// Values at which all literals are true, or the evidence that there are none.
#[derive(Drop)]
pub enum NumAnswer {
    /// A value for each name that occurs in the literals, in rising order of names.
    Point(List<NameValue>),
    /// Multipliers of literals, which count from 1 and rise, none 0 and none negative but at equalities: the left sides
    /// add to nothing, and the bounds to less than 0, or to 0 with a strict literal among them.
    Farkas(List<Share>),
}

/// The same, with the chain of rows whose point gives the values.
#[derive(Drop)]
pub enum ChainAnswer {
    /// The rows of the chain, which count from 1 and fall, and a value for each name that occurs in the literals, in
    /// rising order of names.
    Point {
        chain: List<u32>,
        values: List<NameValue>,
    },
    /// As in `NumAnswer`.
    Farkas(List<Share>),
}

/// Where a number passes: at a row, which counts from 1; at the point of the chain; or at a literal of a line, both of
/// which count from 1, whose sum is taken at the values of the point. Line 0 with literal 0 stands for the literal that
/// a call was asked about.
#[derive(Clone, Copy, Debug, PartialEq, Eq)]
pub enum At {
    Row(u32),
    Point,
    Literal { line: u32, lit: u32 },
}

/// How a number passes: as the chain is eliminated from a row; as a coordinate of the point of the chain is computed;
/// as the left side of a row is summed at that point, or that of a literal at the values of the point; or as a
/// coordinate is divided by that of t, where all rows hold.
#[derive(Clone, Copy, Debug, PartialEq, Eq)]
pub enum Form {
    Elimination,
    Coordinate,
    Sum,
    Value,
}

/// The first number that passes 2^127 - 1 over this chain of rows, with the operation that made it. Row numbers count
/// from 1: row 1 is that of t, and those of the literals follow. The chain lists them in the order in which the rows
/// are taken as equations.
#[derive(Drop)]
pub struct RowStrain {
    pub chain: List<u32>,
    pub at: At,
    pub form: Form,
    pub wide: Wide,
}

/// A place of a search tree: choices on the way from the root to it, in their order, which are an honest path themselves.
#[derive(Drop)]
pub enum Place {
    Path(List<Choice>),
}

/// A strain over the literals over fractions of the path to a place of a search tree. They are counted from 1 in the
/// order of the path, and those of other sorts are not among them.
#[derive(Drop)]
pub struct Strain {
    pub place: Place,
    pub row: RowStrain,
}

/// Values that make every line of a ground problem true, and the honest path at which they were found: before each of its
/// choices some values make the choices so far true and the line of the choice false.
#[derive(Drop)]
pub struct Solution {
    pub values: Valuation,
    pub path: List<Choice>,
    /// Where the search was to be exact, the rows of a chain of the literals over fractions of the path, whose numbers count
    /// from 1 (that of t) and fall: its point gives the values of the names of sort num.
    pub chain: Option<List<u32>>,
}

/// Why there is no answer: a number on the way passes 2^127 - 1, or memory was wanting.
#[derive(Drop)]
pub enum DescentErr {
    Strain(RowStrain),
    Memory,
}

impl From<AllocError> for DescentErr {
    ghost from_gives = { λ _ e. e ≡ memory };

    fn from(_error: AllocError) -> DescentErr {
        DescentErr::Memory
    }
}
