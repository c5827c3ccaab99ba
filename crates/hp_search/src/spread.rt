//! Literals that keep names apart. A guess may give names that nothing fixes any values, so each gets its own: equal values
//! would make the lines false that compare two of them.
ghost use Rattle.std.specs.Prelude.{◌≡◌, IfOk, IfSome, OnOk};
ghost use Rattle.std.specs.List.{All};
ghost use Rattle.hp_lit.specs.Fit.{IsFit};
ghost use Rattle.hp_search.specs.inner.Spread.{IsFitAlone};

use hp_lit::{IdxLit, Lit, Name, NumLit, Part, PtrLit, Rel};
use hp_num::List;
use hp_tree::Sort;
use std::alloc::{AllocError, Global};

/// Marks a name that is below the number of marks.
fn mark(marks: &mut List<bool>, name: Name) {
    let at = name.0 as usize;
    if at < marks.len() {
        marks.set(at, true);
    }
}

/// Marks a side that is a name.
fn mark_side(marks: &mut List<bool>, side: Option<Name>) {
    match side {
        Some(name) => mark(marks, name),
        None => {}
    }
}

/// Marks the names of a literal.
fn mark_lit(marks: &mut List<bool>, lit: &Lit) {
    match lit {
        Lit::Num(num) => {
            for part in num.parts.as_slice() {
                mark(marks, part.name);
            }
        }
        Lit::Idx(row) => {
            mark_side(marks, row.left);
            mark_side(marks, row.right);
        }
        Lit::Ptr(pair) => {
            mark_side(marks, pair.left);
            mark_side(marks, pair.right);
        }
    }
}

/// For each of the first `count` names whether one of the literals is over it.
pub fn mentioned(alloc: Global, count: usize, lits: &[Lit]) -> Result<List<bool>, AllocError> {
    let mut marks = List::new(alloc);
    for _at in 0..count {
        marks.push(false)?;
    }
    for lit in lits {
        mark_lit(&mut marks, lit);
    }
    Ok(marks)
}

/// The name of this number, where it has a mark that says that no literal is over it.
fn free_name(mentioned: &[bool], at: usize) -> Option<Name>
    ensures { IfSome result (λ name. name.0 ≡ at) }
{
    match mentioned.get(at) {
        Some(false) => match u32::try_from(at) {
            Ok(number) => Some(Name(number)),
            Err(_) => None,
        },
        _ => None,
    }
}

/// A literal over this name alone: its value is its number, or isn't null where it is a pointer.
fn own_value(alloc: Global, sort: Sort, name: Name) -> Result<Lit, AllocError>
    ensures { IfOk result (IsFitAlone sort name) }
{
    match sort {
        Sort::Num => Ok(Lit::Num(NumLit {
            rel: Rel::Eq,
            parts: List::from_slice(alloc, &[Part { name, coef: 1 }])?,
            bound: i128::from(name.0),
        })),
        Sort::Idx => Ok(Lit::Idx(IdxLit {
            exact: true,
            left: Some(name),
            right: None,
            bound: i128::from(name.0),
        })),
        Sort::Ptr => Ok(Lit::Ptr(PtrLit {
            same: false,
            left: Some(name),
            right: None,
        })),
    }
}

/// Appends a literal for each name that isn't mentioned, over that name alone. Together these keep the names of each sort
/// apart.
pub fn push_apart(
    alloc: Global,
    sorts: &[Sort],
    mentioned: &[bool],
    lits: &mut List<Lit>,
) -> Result<(), AllocError>
    requires fit { All (IsFit sorts.now) lits.old }
    ensures { OnOk result (All (IsFit sorts.now) lits.new) }
{
    for (at, sort) in sorts.iter().enumerate() {
        match free_name(mentioned, at) {
            Some(name) => lits.push(own_value(alloc, *sort, name)?)?,
            None => {}
        }
    }
    Ok(())
}
