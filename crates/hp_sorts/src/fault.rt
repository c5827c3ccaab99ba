//! Why a problem is not well sorted.

ghost use Rattle.std.specs.Prelude.{◌≡◌};
ghost use Rattle.hp_sorts.specs.declared.fault.SortErr.TheVariants.{Memory as memory};

use std::alloc::AllocError;
use thiserror::Error;

/// The first rule that the first wrong item breaks. An `item` is a declared constant, a declared function or a clause,
/// counted from 1 in the order of the text: all declarations before all clauses.
#[derive(Clone, Copy, Debug, Drop, PartialEq, Eq, Error)]
pub enum SortErr {
    /// A name is declared that an earlier item declares; or a variable has a declared name, or the name of an earlier
    /// variable of its clause.
    #[error("item {item} declares a name twice")]
    Twice { item: u32 },
    /// A function has a level outside 1 to 16.
    #[error("item {item} has a level outside 1 to 16")]
    Level { item: u32 },
    /// A name without arguments is no variable and no constant, or an applied name is no function.
    #[error("item {item} has an unknown name")]
    Unknown { item: u32 },
    /// An application has another number of arguments than the function is declared with.
    #[error("item {item} has an application with a wrong number of arguments")]
    Arity { item: u32 },
    /// A term has not the sort or the form that its place asks for, or pointers are compared by an order.
    #[error("item {item} has a term of a wrong sort")]
    Mismatch { item: u32 },
    /// Memory is short.
    #[error("out of memory")]
    Memory,
}

impl From<AllocError> for SortErr {
    ghost from_gives = { λ _ e. e ≡ memory };

    fn from(_e: AllocError) -> SortErr {
        SortErr::Memory
    }
}
