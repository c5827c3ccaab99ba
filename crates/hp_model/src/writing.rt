//! The text of a structure, put piece by piece at the end of one text.
//! Terms, atoms and numbers are put as in the text of a problem.

ghost use Rattle.std.specs.Prelude.{◌≡◌, ◌++◌, codes, IfOk, OnOk};
ghost use Rattle.std.specs.List.{join_by};
ghost use Rattle.hp_ast.specs.Printing.{atom_text};
ghost use Rattle.hp_model.specs.Written.{condition_text, const_line, row_line, structure_text, table_text};

use crate::structure::{ConstValue, Row, Structure, Table};
use hp_ast::{put_atom, put_frac, put_term};
use hp_num::Text;
use hp_text::{put_text, put_whole};
use hp_tree::Atom;
use std::alloc::{AllocError, Global};

/// The text of a structure: `universe N`, then `const NAME = VALUE` for each constant, and then the table of each
/// function, both in their order. A table is `fun NAME/ARGUMENTS`, the rows `ATOM & ATOM -> TERM`, with `true` for the
/// guard without an atom, `else TERM` and `end`. Each line is ended by one LF. An `Err` comes where memory is short.
pub fn write_structure(alloc: Global, structure: &Structure) -> Result<Text, AllocError>
    ensures { IfOk result (λ text. text ≡ structure_text structure.now) }
{
    let mut out = Text::new(alloc);
    put_text(&mut out, b"universe ")?;
    put_whole(&mut out, i128::from(structure.universe))?;
    put_text(&mut out, b"\n")?;
    for constant in structure.consts.as_slice() {
        put_const(&mut out, constant)?;
    }
    for table in structure.tables.as_slice() {
        put_table(&mut out, table)?;
    }
    Ok(out)
}

/// Puts the line of a constant.
fn put_const(out: &mut Text, constant: &ConstValue) -> Result<(), AllocError>
    ensures { OnOk result (out.new ≡ out.old ++ const_line constant.now) }
{
    put_text(out, b"const ")?;
    put_text(out, constant.name.as_slice())?;
    put_text(out, b" = ")?;
    put_frac(out, constant.value)?;
    put_text(out, b"\n")
}

/// Puts the lines of a table.
fn put_table(out: &mut Text, table: &Table) -> Result<(), AllocError>
    ensures { OnOk result (out.new ≡ out.old ++ table_text table.now) }
{
    put_text(out, b"fun ")?;
    put_text(out, table.func.as_slice())?;
    put_text(out, b"/")?;
    put_whole(out, i128::from(table.args))?;
    put_text(out, b"\n")?;
    for row in table.rows.as_slice() {
        put_row(out, row)?;
    }
    put_text(out, b"else ")?;
    put_term(out, &table.otherwise)?;
    put_text(out, b"\nend\n")
}

/// Puts the line of a row.
fn put_row(out: &mut Text, row: &Row) -> Result<(), AllocError>
    ensures { OnOk result (out.new ≡ out.old ++ row_line row.now) }
{
    put_condition(out, row.guard.as_slice())?;
    put_text(out, b" -> ")?;
    put_term(out, &row.value)?;
    put_text(out, b"\n")
}

/// Puts the atoms of a guard, or `true` where there is none.
fn put_condition(out: &mut Text, guard: &[Atom]) -> Result<(), AllocError>
    ensures { OnOk result (out.new ≡ out.old ++ condition_text guard.now) }
{
    if guard.is_empty() {
        return put_text(out, b"true");
    }
    put_conjunction(out, guard)
}

/// Puts atoms with `&` between each two.
fn put_conjunction(out: &mut Text, atoms: &[Atom]) -> Result<(), AllocError>
    ensures { OnOk result (out.new ≡ out.old ++ join_by atom_text (codes " & ") atoms.now) }
{
    for (i, atom) in atoms.iter().enumerate() {
        if i > 0 {
            put_text(out, b" & ")?;
        }
        put_atom(out, atom)?;
    }
    Ok(())
}
