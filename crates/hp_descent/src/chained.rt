//! How the left side of a literal stands to its bound at the values that the point of a chain gives, as one asks whether
//! rows force a further literal to be true.

ghost use Rattle.std.specs.Prelude.{◌≡◌, ◌<◌, IfOk, map, suc};
ghost use Rattle.std.specs.List.{All};
ghost use Rattle.hp_descent.specs.Columns.{AreNumFit, columns};
ghost use Rattle.hp_lit.specs.Fit.{IsNumFit};
ghost use Rattle.hp_descent.specs.Values.{ComparesAt, GivesValues, HoldsAtChain};

use crate::answer::{At, DescentErr, Form, RowStrain};
use crate::columns::columns_of;
use crate::decision::{numbered_strain, values_at};
use crate::rows::rows_of;
use crate::sums::{standing, sum_among};
use hp_lit::{NameValue, NumLit};
use hp_num::List;
use hp_rows::{Located, locate};
use std::alloc::{AllocError, Global};
use std::cmp::Ordering;

/// How the left side of `other` stands to its bound at the values that the point of a chain gives: each coordinate over
/// that of t, and 0 for a name that doesn't occur in the literals.
///
/// The chain lists rows of the literals, which count from 1 and fall; row 1 is that of t. At its point every row holds.
/// `DescentErr::Strain` names the first number that passes 2^127 - 1 on the way to the values, as `decide_chain` does,
/// or else in the sum, with the whole chain and `At::Literal` of line 0 and literal 0. `DescentErr::Memory` says that
/// memory was wanting. Nothing is left behind. It asks for literals that `are_fit` takes, and
/// for an `other` as `compare` does.
pub fn value_at(
    alloc: Global,
    lits: &[NumLit],
    chain: &[u32],
    other: &NumLit,
) -> Result<Ordering, DescentErr>
    requires fit { AreNumFit lits.now }
    requires other { IsNumFit other.now }
    requires chain { HoldsAtChain lits.now chain.now }
    ensures { ComparesAt lits.now chain.now other.now result }
{
    let names = columns_of(alloc, lits)?;
    let values = chain_values(alloc, lits, &names, chain)?;
    match sum_among(values.as_slice(), other.parts.as_slice()) {
        Ok(sum) => Ok(standing(sum, other.bound)),
        Err(wide) => {
            let chain = List::from_slice(alloc, chain)?;
            Err(DescentErr::Strain(RowStrain {
                chain,
                at: At::Literal { line: 0, lit: 0 },
                form: Form::Sum,
                wide,
            }))
        }
    }
}

/// The values that the point of a chain gives, with the names of the columns.
fn chain_values(
    alloc: Global,
    lits: &[NumLit],
    names: &[u32],
    chain: &[u32],
) -> Result<List<NameValue>, DescentErr>
    requires fit { AreNumFit lits.now }
    requires columns { names.now ≡ columns lits.now }
    requires chain { HoldsAtChain lits.now chain.now }
    ensures { GivesValues lits.now chain.now result }
{
    let rows = rows_of(alloc, names, lits)?;
    let chain = rows_from(alloc, chain)?;
    match locate(alloc, names.len() + 1, rows.as_slice(), chain.as_slice()) {
        Located::Point(point) => values_at(alloc, lits, names, chain.as_slice(), point.as_slice()),
        Located::Strain(strain) => Err(DescentErr::Strain(numbered_strain(alloc, lits, &strain)?)),
        // No combination contradicts rows that hold somewhere.
        Located::Contradiction(_) | Located::Memory => Err(DescentErr::Memory),
    }
}

/// The row numbers of a chain, counted from 0 in place of 1.
fn rows_from(alloc: Global, chain: &[u32]) -> Result<List<usize>, AllocError>
    requires { All (λ number. 0 < number) chain.now }
    ensures { IfOk result (λ rows. map suc rows ≡ chain.now) }
{
    let mut rows = List::new(alloc);
    for number in chain {
        rows.push(*number as usize - 1)?;
    }
    Ok(rows)
}
