//! What bodies are hashed by: lists of flat cells, equal for equal bodies and for no others.
ghost use Rattle.std.specs.Prelude.{◌≡◌, ◌∷◌, ◌++◌, map, OnOk, IfOk};
ghost use Rattle.hp_defs.specs.Cells.{arg_cell, part_cell, body_cells};

use hp_lit::{Arg, Body, LinPart};
use std::alloc::{AllocError, Global};

/// One piece of a body. Numbers stand by their numerators and denominators in lowest terms.
#[derive(Clone, Copy, PartialEq, Eq, Hash)]
pub enum Cell {
    /// The function of an application.
    Function(u32),
    /// A number of sort num.
    Number(i128, i128),
    /// A name.
    Named(u32),
    /// A name of sort idx plus a whole number.
    Shifted(u32, i128),
    /// A whole number of sort idx.
    Offset(i128),
    /// The null pointer.
    Null,
    /// A multiple of a name.
    Multiple(u32, i128, i128),
}

/// The cells of a body: its function, or the number of its sum, and then a cell for each argument or summand.
pub fn cells_of(alloc: Global, body: &Body) -> Result<Vec<Cell>, AllocError>
    ensures { IfOk result (λ all. all.items ≡ body_cells body.now) }
{
    match body {
        Body::Apply { func, args } => {
            let mut all = Vec::with_capacity(alloc, args.as_slice().len() + 1)?;
            all.push(Cell::Function(*func))?;
            put_args(&mut all, args.as_slice())?;
            Ok(all)
        }
        Body::Sum(sum) => {
            let mut all = Vec::with_capacity(alloc, sum.parts.as_slice().len() + 1)?;
            all.push(Cell::Number(sum.rest.num(), sum.rest.den()))?;
            put_parts(&mut all, sum.parts.as_slice())?;
            Ok(all)
        }
    }
}

fn put_args(all: &mut Vec<Cell>, args: &[Arg]) -> Result<(), AllocError>
    ensures { OnOk result (all.new.items ≡ all.old.items ++ map arg_cell args.now) }
{
    for arg in args {
        all.push(cell_of_arg(arg))?;
    }
    Ok(())
}

fn put_parts(all: &mut Vec<Cell>, parts: &[LinPart]) -> Result<(), AllocError>
    ensures { OnOk result (all.new.items ≡ all.old.items ++ map part_cell parts.now) }
{
    for part in parts {
        all.push(cell_of_part(*part))?;
    }
    Ok(())
}

fn cell_of_arg(arg: &Arg) -> Cell
    ensures { result ≡ arg_cell arg.now }
{
    match arg {
        Arg::Number(number) => Cell::Number(number.num(), number.den()),
        Arg::Named(name) => Cell::Named(name.0),
        Arg::Index { base, offset } => match base {
            Some(name) => Cell::Shifted(name.0, *offset),
            None => Cell::Offset(*offset),
        },
        Arg::Null => Cell::Null,
    }
}

fn cell_of_part(part: LinPart) -> Cell
    ensures { result ≡ part_cell part }
{
    Cell::Multiple(part.name.0, part.coef.num(), part.coef.den())
}
