//! The literals of a path, copied from the lines.
ghost use Rattle.std.specs.Prelude.{◌≡◌, ◌++◌, ◌∷◌, [], IfOk, OnOk};
ghost use Rattle.hp_leaf.specs.Tree.{lit_at, place_lits};

use hp_lit::{Choice, IdxLit, Line, Lit};
use hp_num::List;
use std::alloc::{AllocError, Global};

/// A copy of the literal of a choice; `0 <= 0` where there is none.
fn lit_at(alloc: Global, lines: &[Line], choice: Choice) -> Result<Lit, AllocError>
    ensures { IfOk result (λ lit. lit ≡ lit_at lines.now choice) }
{
    let line = (choice.line as usize).saturating_sub(1);
    let lit = (choice.lit as usize).saturating_sub(1);
    match lines.get(line) {
        None => Ok(nothing()),
        Some(line) => match line.lits.as_slice().get(lit) {
            None => Ok(nothing()),
            Some(lit) => lit.copy(alloc),
        },
    }
}

/// `0 <= 0`.
fn nothing() -> Lit
    ensures { result ≡ Rattle.hp_leaf.specs.Tree.nothing }
{
    Lit::Idx(IdxLit {
        exact: false,
        left: None,
        right: None,
        bound: 0,
    })
}

/// Appends the literals of these choices.
pub fn push_lits(
    alloc: Global,
    lines: &[Line],
    path: &[Choice],
    lits: &mut List<Lit>,
) -> Result<(), AllocError>
    ensures { OnOk result (lits.new ≡ lits.old ++ place_lits lines.now path.now) }
{
    for choice in path {
        lits.push(lit_at(alloc, lines, *choice)?)?;
    }
    Ok(())
}

/// The literals of a path.
pub fn lits_of(alloc: Global, lines: &[Line], path: &[Choice]) -> Result<List<Lit>, AllocError>
    ensures { IfOk result (λ lits. lits ≡ place_lits lines.now path.now) }
{
    let mut lits = List::new(alloc);
    push_lits(alloc, lines, path, &mut lits)?;
    Ok(lits)
}
