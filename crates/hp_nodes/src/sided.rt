//! Rows of two sides, each a name or none, and the names that such rows mention.
ghost use Rattle.std.specs.Prelude.{◌≡◌, IfOk, Option};
ghost use Rattle.hp_lit.specs.declared.literal.Name.{Name};
ghost use Rattle.hp_nodes.specs.Nodes.{AreNames, mentioned_by};

use crate::names::{distinct, mention};
use hp_lit::{IdxLit, Name, PtrLit};
use std::alloc::{AllocError, Global};

/// A row with a left and a right side.
pub trait Sided {
    ghost left_of: { Self → Option Name };

    ghost right_of: { Self → Option Name };

    /// The name on the left side, or none.
    fn left(&self) -> Option<Name>
        ensures { result ≡ left_of self.now };

    /// The name on the right side, or none.
    fn right(&self) -> Option<Name>
        ensures { result ≡ right_of self.now };
}

impl Sided for IdxLit {
    ghost left_of = { λ row. row.left };

    ghost right_of = { λ row. row.right };

    fn left(&self) -> Option<Name> {
        self.left
    }

    fn right(&self) -> Option<Name> {
        self.right
    }
}

impl Sided for PtrLit {
    ghost left_of = { λ row. row.left };

    ghost right_of = { λ row. row.right };

    fn left(&self) -> Option<Name> {
        self.left
    }

    fn right(&self) -> Option<Name> {
        self.right
    }
}

/// The names that the rows mention, as often as they do.
fn mentions<R: Sided>(alloc: Global, rows: &[R]) -> Result<Vec<u32>, AllocError>
    ensures { IfOk result (λ names. names.items ≡ mentioned_by R.left_of R.right_of rows.now) }
{
    let mut names = Vec::new(alloc);
    for row in rows {
        mention(&mut names, row.left())?;
        mention(&mut names, row.right())?;
    }
    Ok(names)
}

/// The names that the rows mention, each once, in rising order. `Err` says that memory was wanting.
pub fn distinct_names<R: Sided>(alloc: Global, rows: &[R]) -> Result<Vec<u32>, AllocError>
    ensures { IfOk result (λ names. AreNames (mentioned_by R.left_of R.right_of rows.now) names.items) }
{
    distinct(mentions(alloc, rows)?)
}
