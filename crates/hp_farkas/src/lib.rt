//! The check of a Farkas combination: literals over fractions, each with a multiplier, that add to nothing below 0.
//!
//! The method is that of J. Farkas, Theorie der einfachen Ungleichungen (1902): linear inequalities can't all be true
//! if and only if some multiples of them add to 0 on the left and to less on the right.
#![tactic(auto)]

ghost use Rattle.hp_farkas.specs.Names.{NamesInOrder};
ghost use Rattle.hp_farkas.specs.Sums.{OneProductEach};

mod check;
mod form;
mod next;
mod sums;

pub use check::check_num;

/// The names that are added up rise strictly, and are those that occur in the literals taken.
pub fn names_in_order()
    ensures { NamesInOrder }
{}

/// At a name a literal makes one product, its multiplier times the name's coefficient, or none where it lacks the name.
pub fn one_product_each()
    ensures { OneProductEach }
{}
