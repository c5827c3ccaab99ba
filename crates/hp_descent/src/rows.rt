//! The rows of literals, over the names of the columns and the number t that multiplies each bound.

ghost use Rattle.std.specs.Prelude.{◌≡◌, ◌<◌, ◌^◌, ◌++◌, ◌∷◌, [], IfOk, OnOk, map, pos, neg_ℤ, unsigned_abs};
ghost use Rattle.std.specs.List.{All};
ghost use Rattle.std.specs.List.Sorted.{IsStrictlyIncreasing};
ghost use Rattle.hp_lit.specs.Leaf.{coefficient};
ghost use Rattle.hp_lit.specs.Fit.{IsNumFit, part_names};
ghost use Rattle.hp_descent.specs.LiteralRows.{backward_row, forward_row, rows_by, rows_over, scale_row};

use hp_lit::{NumLit, Part, Rel};
use hp_num::{List, Whole};
use hp_rows::Row;
use std::alloc::{AllocError, Global};

/// The rows of the literals over these names: the row of t, and then those of each literal in turn.
pub fn rows_of(alloc: Global, names: &[u32], lits: &[NumLit]) -> Result<List<Row>, AllocError>
    requires { All IsNumFit lits.now }
    ensures { IfOk result (λ rows. rows ≡ scale_row names.now ∷ rows_over names.now lits.now) }
{
    let mut rows = List::new(alloc);
    rows.push(scale_row(alloc, names)?)?;
    for at in 0..lits.len() {
        push_rows(alloc, names, &lits[at], &mut rows)?;
    }
    Ok(rows)
}

/// Appends the rows of a literal: two where it is an equality, one otherwise.
fn push_rows(
    alloc: Global,
    names: &[u32],
    lit: &NumLit,
    rows: &mut List<Row>,
) -> Result<(), AllocError>
    requires { IsNumFit lit.now }
    ensures { OnOk result (rows.new ≡ rows.old ++ rows_by lit.now.rel names.now lit.now) }
{
    match lit.rel {
        Rel::Le => rows.push(forward_row(alloc, names, lit, Whole::new(0))?)?,
        Rel::Lt => rows.push(forward_row(alloc, names, lit, Whole::new(-1))?)?,
        Rel::Eq => {
            rows.push(forward_row(alloc, names, lit, Whole::new(0))?)?;
            rows.push(backward_row(alloc, names, lit)?)?;
        }
    }
    Ok(())
}

/// The row `-t <= -1`.
fn scale_row(alloc: Global, names: &[u32]) -> Result<Row, AllocError>
    ensures { IfOk result (λ row. row ≡ scale_row names.now) }
{
    let mut coefs = List::new(alloc);
    for _name in names {
        coefs.push(Whole::new(0))?;
    }
    coefs.push(Whole::new(-1))?;
    Ok(Row {
        coefs,
        bound: Whole::new(-1),
    })
}

/// The row `a.x - b*t <= most` of a literal with left side `a.x` and bound `b`.
fn forward_row(alloc: Global, names: &[u32], lit: &NumLit, most: Whole) -> Result<Row, AllocError>
    requires { IsNumFit lit.now }
    ensures { IfOk result (λ row. row ≡ forward_row names.now lit.now most) }
{
    let mut coefs = List::new(alloc);
    for name in names {
        coefs.push(coefficient(lit.parts.as_slice(), *name))?;
    }
    coefs.push(Whole::new(lit.bound).negated())?;
    Ok(Row { coefs, bound: most })
}

/// The row `-a.x + b*t <= 0` of a literal with left side `a.x` and bound `b`.
fn backward_row(alloc: Global, names: &[u32], lit: &NumLit) -> Result<Row, AllocError>
    requires { IsNumFit lit.now }
    ensures { IfOk result (λ row. row ≡ backward_row names.now lit.now) }
{
    let mut coefs = List::new(alloc);
    for name in names {
        coefs.push(coefficient(lit.parts.as_slice(), *name).negated())?;
    }
    coefs.push(Whole::new(lit.bound))?;
    Ok(Row {
        coefs,
        bound: Whole::new(0),
    })
}

/// The coefficient of a name, 0 where it has none.
fn coefficient(parts: &[Part], name: u32) -> Whole
    requires rising { IsStrictlyIncreasing (part_names parts.now) }
    requires narrow { All (λ p. unsigned_abs p.coef < 2 ^ 127) parts.now }
    ensures { result ≡ coefficient name parts.now }
{
    for part in parts {
        if part.name.0 == name {
            return Whole::new(part.coef);
        }
    }
    Whole::new(0)
}
