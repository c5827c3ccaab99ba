//! The literals of a path by their sorts, each with its number along the path.
ghost use Rattle.std.specs.Prelude.{◌≡◌, ◌≤◌, IfOk, length};
ghost use Rattle.hp_tree.specs.Limits.{most_rows};
ghost use Rattle.hp_path.specs.Parted.{AreParts};

use hp_lit::{IdxLit, Lit, NumLit, PtrLit};
use hp_num::List;
use std::alloc::{AllocError, Global};

/// The literals over whole numbers, those over fractions and those over pointers, in their order, and the number of each
/// along the path, counted from 1.
#[derive(Drop)]
pub struct Parts {
    pub rows: List<IdxLit>,
    pub row_places: List<u32>,
    pub nums: List<NumLit>,
    pub num_places: List<u32>,
    pub pairs: List<PtrLit>,
    pub pair_places: List<u32>,
}

/// The literals of a path by their sorts.
pub fn parts_of(alloc: Global, lits: &[Lit]) -> Result<Parts, AllocError>
    requires few { length lits.now ≤ most_rows }
    ensures { IfOk result (λ parts. AreParts lits.now parts) }
{
    let mut rows = List::new(alloc);
    let mut row_places = List::new(alloc);
    let mut nums = List::new(alloc);
    let mut num_places = List::new(alloc);
    let mut pairs = List::new(alloc);
    let mut pair_places = List::new(alloc);
    for at in 0..lits.len() {
        match &lits[at] {
            Lit::Num(lit) => {
                nums.push(lit.copy(alloc)?)?;
                num_places.push(at as u32 + 1)?;
            }
            Lit::Idx(row) => {
                rows.push(*row)?;
                row_places.push(at as u32 + 1)?;
            }
            Lit::Ptr(pair) => {
                pairs.push(*pair)?;
                pair_places.push(at as u32 + 1)?;
            }
        }
    }
    Ok(Parts {
        rows,
        row_places,
        nums,
        num_places,
        pairs,
        pair_places,
    })
}
