//! The limits that a ground problem may pass.

ghost use Rattle.std.specs.Prelude.{◌≡◌};
ghost use Rattle.hp_lit.specs.Limited.{coefficient, many_lines, many_names};

use hp_tree::{Limit, MOST_LINES, MOST_NAMES, Which};

/// The limit on names, constants and definitions together.
pub fn many_names() -> Limit
    ensures { result ≡ many_names }
{
    Limit {
        which: Which::Names,
        most: MOST_NAMES as u64,
        item: 0,
    }
}

/// The limit on lines.
pub fn many_lines() -> Limit
    ensures { result ≡ many_lines }
{
    Limit {
        which: Which::Lines,
        most: MOST_LINES as u64,
        item: 0,
    }
}

/// The limit on the coefficients of an item, counted from 1.
pub fn coefficient(item: u32) -> Limit
    ensures { result ≡ coefficient item }
{
    Limit {
        which: Which::Coefficient,
        most: 0,
        item,
    }
}
