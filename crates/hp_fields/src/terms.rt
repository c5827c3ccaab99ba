//! The pointers that names stand for.
ghost use Rattle.std.specs.Prelude.{◌≡◌, ◌++◌, IfOk, OnOk};
ghost use Rattle.hp_defs.specs.Made.{IsMade};
ghost use Rattle.hp_fields.specs.Fields.{pointer_at, pointer_terms};

use hp_defs::Names;
use hp_lit::{Arg, Name};
use hp_num::List;
use hp_tree::Sort;
use std::alloc::{AllocError, Global};

/// Null, and the names of sort ptr in their order. `Err` says that memory was wanting.
pub fn pointer_terms(alloc: Global, names: &Names) -> Result<List<Arg>, AllocError>
    ensures terms { IfOk result (λ terms. terms ≡ pointer_terms names.now) }
    ensures made { IsMade names.now }
{
    let count = names.count();
    let mut terms = List::new(alloc);
    terms.push(Arg::Null)?;
    for at in 0..count {
        let name = Name(at as u32);
        add_pointer(&mut terms, name, names.sort(name))?;
    }
    Ok(terms)
}

/// Adds a name of this sort at the end, where it is one of sort ptr.
fn add_pointer(terms: &mut List<Arg>, name: Name, sort: Sort) -> Result<(), AllocError>
    ensures { OnOk result (terms.new ≡ terms.old ++ pointer_at name.0 sort) }
{
    match sort {
        Sort::Num | Sort::Idx => Ok(()),
        Sort::Ptr => terms.push(Arg::Named(name)),
    }
}
