//! The sorts of atoms in a clause, before its variables are replaced.

ghost use Rattle.std.specs.Prelude.{◌≡◌, IfOk};
ghost use Rattle.hp_norm.specs.Scopes.{clause_scope};
ghost use Rattle.hp_instance.specs.Instances.{atom_sorts};

use hp_defs::Names;
use hp_norm::clause_sort;
use hp_num::List;
use hp_tree::{Atom, Sort, Var};
use std::alloc::{AllocError, Global};

/// The sort of each atom in a clause with these variables: that of its first variable, name, application or null outside
/// the arguments of applications; without one `Num`.
pub(crate) fn atom_sorts(
    alloc: Global,
    names: &Names,
    vars: &[Var],
    atoms: &[Atom],
) -> Result<List<Sort>, AllocError>
    ensures { IfOk result (λ sorts. sorts ≡ atom_sorts (clause_scope names.now vars.now) atoms.now) }
{
    let mut sorts = List::new(alloc);
    for atom in atoms {
        sorts.push(clause_sort(names, vars, atom))?;
    }
    Ok(sorts)
}
