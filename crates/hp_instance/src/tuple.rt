//! The arguments at which a clause with variables is taken.

use hp_lit::Arg;
use hp_num::List;

/// An argument for each variable of a clause, in the order of the variables, and the arguments that the line's origin shows.
#[derive(Drop)]
pub struct Tuple {
    pub args: List<Arg>,
    pub shown: List<Arg>,
}
