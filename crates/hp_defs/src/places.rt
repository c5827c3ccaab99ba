//! The applications of each function, by the places of their definitions, counted from 0.
ghost use Rattle.std.specs.Prelude.{◌≡◌, ℕ, List as Listed, OnErr, OnOk};
ghost use Rattle.hp_defs.specs.Places.{applied, with_place};

use hp_lit::Body;
use hp_num::List;
use std::alloc::AllocError;

/// The function that a body applies, or `None` for a sum.
pub fn applied(body: &Body) -> Option<u32>
    ensures { result ≡ applied body.now }
{
    match body {
        Body::Apply { func, .. } => Some(*func),
        Body::Sum(_) => None,
    }
}

/// Adds a place behind those of a function, where it is one of them. At `Err` the places are as before.
pub fn add_place(groups: &mut Vec<List<u32>>, at: u32, func: Option<u32>) -> Result<(), AllocError>
    ensures added { OnOk result (groups.new.items ≡ with_place groups.old.items at func) }
    ensures unchanged { OnErr result (groups.new.items ≡ groups.old.items) }
{
    match func {
        Some(func) => {
            let func = func as usize;
            if func < groups.len() {
                groups[func].push(at)?;
            }
            Ok(())
        }
        None => Ok(()),
    }
}

/// Takes off the place that was added last for a function.
pub fn take_place(groups: &mut Vec<List<u32>>, func: Option<u32>)
    ensures { (kept : Listed (Listed ℕ)) (at : ℕ) → groups.old.items ≡ with_place kept at func → groups.new.items ≡ kept }
{
    match func {
        Some(func) => {
            let func = func as usize;
            if func < groups.len() {
                groups[func].pop();
            }
        }
        None => {}
    }
}
