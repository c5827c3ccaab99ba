//! Rows: a sum of coefficient times value that is at most a bound.

ghost use Rattle.std.specs.Prelude.{◌≡◌, ◌↔◌, true};
ghost use Rattle.hp_rows.specs.Rows.{AreWide};

use hp_num::{List, Whole};

/// The row `coefs . x <= bound`, with one coefficient for each column, in the order of the columns.
#[derive(Drop)]
pub struct Row {
    pub coefs: List<Whole>,
    pub bound: Whole,
}

/// Whether each row has `width` coefficients.
pub fn are_wide(width: usize, rows: &[Row]) -> bool
    ensures { result ≡ true ↔ AreWide width rows.now }
{
    for at in 0..rows.len() {
        if rows[at].coefs.len() != width {
            return false;
        }
    }
    true
}
