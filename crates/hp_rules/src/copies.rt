//! Equal lists of what doesn't copy itself.

ghost use Rattle.std.specs.Prelude.{◌≡◌, IfOk};

use hp_lit::NumLit;
use hp_norm::FlatClause;
use hp_num::List;
use hp_pairs::Given;
use hp_tree::{Atom, Var};
use std::alloc::{AllocError, Global};

/// Equal atoms. `Err` says that memory was wanting.
pub fn copy_atoms(alloc: Global, atoms: &[Atom]) -> Result<List<Atom>, AllocError>
    ensures { IfOk result (λ copies. copies ≡ atoms.now) }
{
    let mut copies = List::new(alloc);
    for atom in atoms {
        copies.push(atom.copy(alloc)?)?;
    }
    Ok(copies)
}

/// Equal literals.
pub fn copy_rows(alloc: Global, rows: &[NumLit]) -> Result<List<NumLit>, AllocError>
    ensures { IfOk result (λ copies. copies ≡ rows.now) }
{
    let mut copies = List::new(alloc);
    for row in rows {
        copies.push(row.copy(alloc)?)?;
    }
    Ok(copies)
}

/// An equal bound of a clause.
pub fn copy_given(alloc: Global, given: &Given) -> Result<Given, AllocError>
    ensures { IfOk result (λ copy. copy ≡ given.now) }
{
    Ok(Given {
        clause: given.clause,
        term: given.term.copy(alloc)?,
    })
}

/// An equal clause. `Err` says that memory was wanting.
pub fn copy_clause(alloc: Global, clause: &FlatClause) -> Result<FlatClause, AllocError>
    ensures { IfOk result (λ copy. copy ≡ clause.now) }
{
    Ok(FlatClause {
        clause: clause.clause,
        item: clause.item,
        vars: copy_vars(alloc, clause.vars.as_slice())?,
        guard: copy_atoms(alloc, clause.guard.as_slice())?,
        head: copy_atoms(alloc, clause.head.as_slice())?,
    })
}

/// Equal variables.
fn copy_vars(alloc: Global, vars: &[Var]) -> Result<List<Var>, AllocError>
    ensures { IfOk result (λ copies. copies ≡ vars.now) }
{
    let mut copies = List::new(alloc);
    for var in vars {
        copies.push(var.copy(alloc)?)?;
    }
    Ok(copies)
}
