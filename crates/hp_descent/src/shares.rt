//! From multipliers of rows to multipliers of literals.

ghost use Rattle.std.specs.Prelude.{◌≡◌, ◌<◌, ◌^◌, ◌++◌, ◌+◌, IfOk, OnOk, [], length, pos, drop, ◌≤ℤ◌, unsigned_abs};
ghost use Rattle.std.specs.List.{All};
ghost use Rattle.hp_rows.specs.Rows.{AreNotNegative, times_at};
ghost use Rattle.hp_descent.specs.inner.Shares.{IsNarrow, row_count, shares_of, signed_by, with_share};

use hp_lit::{NumLit, Rel, Share};
use hp_num::{List, Whole};
use std::alloc::{AllocError, Global};

/// The shares of the literals, which count from 1, from a multiplier for each row. Row 0 is that of t, and those of the
/// literals follow. The two rows of an equality make one signed share, and a share of multiplier 0 is left out.
pub fn shares_of(alloc: Global, lits: &[NumLit], times: &[Whole]) -> Result<List<Share>, AllocError>
    requires few { length lits.now < 2 ^ 28 }
    requires none_negative { AreNotNegative times.now }
    ensures shares { IfOk result (λ shares. shares ≡ shares_of lits.now times.now) }
    ensures narrow { IfOk result (λ shares. All IsNarrow shares) }
{
    let mut shares = List::new(alloc);
    let mut row = 1;
    for at in 0..lits.len() {
        let rel = lits[at].rel;
        push_share(&mut shares, at as u32 + 1, signed_by(rel, times, row))?;
        row += row_count(rel);
    }
    Ok(shares)
}

/// Appends the share of a literal, unless its multiplier is 0.
fn push_share(shares: &mut List<Share>, lit: u32, times: i128) -> Result<(), AllocError>
    requires { unsigned_abs times < 2 ^ 127 }
    ensures shares { OnOk result (shares.new ≡ shares.old ++ with_share lit times []) }
    ensures narrow { All IsNarrow shares.old → OnOk result (All IsNarrow shares.new) }
{
    if times != 0 {
        shares.push(Share { lit, times })?;
    }
    Ok(())
}

/// How many rows a literal has.
fn row_count(rel: Rel) -> usize
    ensures { result ≡ row_count rel }
{
    match rel {
        Rel::Eq => 2,
        Rel::Le | Rel::Lt => 1,
    }
}

/// The multiplier of a literal whose rows begin at `row`.
fn signed_by(rel: Rel, times: &[Whole], row: usize) -> i128
    requires small { row < 2 ^ 30 }
    requires none_negative { AreNotNegative times.now }
    ensures value { result ≡ signed_by rel (drop row times.now) }
    ensures narrow { unsigned_abs result < 2 ^ 127 }
{
    match rel {
        Rel::Eq => times_at(times, row) - times_at(times, row + 1),
        Rel::Le | Rel::Lt => times_at(times, row),
    }
}

/// The multiplier of a row, 0 past the end.
fn times_at(times: &[Whole], row: usize) -> i128
    requires { AreNotNegative times.now }
    ensures value { result ≡ times_at times.now row }
    ensures positive { pos 0 ≤ℤ result }
    ensures narrow { unsigned_abs result < 2 ^ 127 }
{
    if row < times.len() {
        times[row].value()
    } else {
        0
    }
}
