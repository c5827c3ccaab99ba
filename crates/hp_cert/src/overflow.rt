//! The text of a strain, at a place of a search tree or over the rows of two clauses.
//! What the text is, is said on the data alone, in `specs/Overflow.antt`.

ghost use Rattle.std.specs.Prelude.{◌≡◌, ◌++◌, IfOk, OnOk};
ghost use Rattle.std.specs.List.{flat_map};
ghost use Rattle.hp_cert.specs.Overflow.{at_text, choice_text, form_text, operation_text, overflow_text, pair_overflow_text, pair_text, place_text, row_strain_text, row_text, wide_text};

use hp_descent::{At, Form, Place, RowStrain, Strain};
use hp_lit::Choice;
use hp_num::{Op, Text, Wide};
use hp_text::{put_text, put_whole};
use std::alloc::{AllocError, Global};

/// The line that shows a strain, with a line feed behind it, as in
/// `overflow path 1.1 4.2; chain 5 3; at 2; form 1; 170141183460469231731687303715884105727 * 2`.
///
/// Behind `path` stand the choices from the root on, each a line and a literal of it, and behind `chain` the rows of
/// the chain in its order; an empty list leaves its word alone. At stands a row, a literal of a line, or `point`. Lines,
/// literals and rows count from 1. The form is 1 for an elimination, 2 for a coordinate of the point, 3 for a sum at
/// the point, and 4 for a value. The operation is `*`, `+` or `-` between its two numbers, a negative one with `-`
/// before its digits. An `Err` comes where memory is short.
pub fn overflow_text(alloc: Global, strain: &Strain) -> Result<Text, AllocError>
    ensures { IfOk result (λ text. text ≡ overflow_text strain.now) }
{
    let mut out = Text::new(alloc);
    put_text(&mut out, b"overflow ")?;
    put_place(&mut out, &strain.place)?;
    put_row_strain(&mut out, &strain.row)?;
    Ok(out)
}

/// The line that shows a strain over the rows of two clauses of a rule, with a line feed behind it, as in
/// `overflow rule 8 clause 4 with 2; chain 5 3; at 2; form 1; 170141183460469231731687303715884105727 * 2`.
///
/// Behind `rule` stands the number of the rule, and behind `clause` and `with` those of the clauses. What follows is as in
/// `overflow_text`. An `Err` comes where memory is short.
pub fn pair_overflow_text(
    alloc: Global,
    rule: u8,
    clause: u32,
    other: u32,
    row: &RowStrain,
) -> Result<Text, AllocError>
    ensures { IfOk result (λ text. text ≡ pair_overflow_text rule clause other row.now) }
{
    let mut out = Text::new(alloc);
    put_text(&mut out, b"overflow ")?;
    put_pair(&mut out, rule, clause, other)?;
    put_row_strain(&mut out, row)?;
    Ok(out)
}

/// Puts a rule and two clauses. Here as in the calls below, a part may be in `out` where memory is short.
fn put_pair(out: &mut Text, rule: u8, clause: u32, other: u32) -> Result<(), AllocError>
    ensures { OnOk result (out.new ≡ out.old ++ pair_text rule clause other) }
{
    put_text(out, b"rule ")?;
    put_whole(out, i128::from(rule))?;
    put_text(out, b" clause ")?;
    put_whole(out, i128::from(clause))?;
    put_text(out, b" with ")?;
    put_whole(out, i128::from(other))
}

/// Puts what a strain says of its rows: the chain, where on the way, the form and the operation.
fn put_row_strain(out: &mut Text, row: &RowStrain) -> Result<(), AllocError>
    ensures { OnOk result (out.new ≡ out.old ++ row_strain_text row.now) }
{
    put_text(out, b"; chain")?;
    put_rows(out, row.chain.as_slice())?;
    put_text(out, b"; at ")?;
    put_at(out, row.at)?;
    put_text(out, b"; form ")?;
    put_text(out, form(row.form))?;
    put_text(out, b"; ")?;
    put_wide(out, row.wide)?;
    put_text(out, b"\n")
}

/// Puts a place.
fn put_place(out: &mut Text, place: &Place) -> Result<(), AllocError>
    ensures { OnOk result (out.new ≡ out.old ++ place_text place.now) }
{
    match place {
        Place::Path(choices) => {
            put_text(out, b"path")?;
            put_choices(out, choices.as_slice())
        }
    }
}

/// Puts the choices of a path.
fn put_choices(out: &mut Text, choices: &[Choice]) -> Result<(), AllocError>
    ensures { OnOk result (out.new ≡ out.old ++ flat_map choice_text choices.now) }
{
    for choice in choices {
        put_text(out, b" ")?;
        put_whole(out, i128::from(choice.line))?;
        put_text(out, b".")?;
        put_whole(out, i128::from(choice.lit))?;
    }
    Ok(())
}

/// Puts the numbers of rows.
fn put_rows(out: &mut Text, rows: &[u32]) -> Result<(), AllocError>
    ensures { OnOk result (out.new ≡ out.old ++ flat_map row_text rows.now) }
{
    for row in rows {
        put_text(out, b" ")?;
        put_whole(out, i128::from(*row))?;
    }
    Ok(())
}

/// Puts where on the way the number is too wide.
fn put_at(out: &mut Text, at: At) -> Result<(), AllocError>
    ensures { OnOk result (out.new ≡ out.old ++ at_text at) }
{
    match at {
        At::Row(row) => put_whole(out, i128::from(row)),
        At::Point => put_text(out, b"point"),
        At::Literal { line, lit } => {
            put_whole(out, i128::from(line))?;
            put_text(out, b".")?;
            put_whole(out, i128::from(lit))
        }
    }
}

/// The number of a form.
fn form(form: Form) -> &'static [u8]
    ensures { result.now ≡ form_text form }
{
    match form {
        Form::Elimination => b"1",
        Form::Coordinate => b"2",
        Form::Sum => b"3",
        Form::Value => b"4",
    }
}

/// Puts an operation between its two numbers.
fn put_wide(out: &mut Text, wide: Wide) -> Result<(), AllocError>
    ensures { OnOk result (out.new ≡ out.old ++ wide_text wide) }
{
    put_whole(out, wide.left)?;
    put_text(out, operation(wide.op))?;
    put_whole(out, wide.right)
}

/// The sign of an operation between its numbers.
fn operation(op: Op) -> &'static [u8]
    ensures { result.now ≡ operation_text op }
{
    match op {
        Op::Times => b" * ",
        Op::Plus => b" + ",
        Op::Minus => b" - ",
    }
}
