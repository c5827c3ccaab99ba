//! Tests for each sort.
ghost use Rattle.std.specs.Prelude.{◌≡◌};
ghost use Rattle.hp_flatten.specs.Sorts.{is_idx, is_num, is_ptr};

use hp_tree::Sort;

/// Whether a sort is num.
pub fn is_num(sort: Sort) -> bool
    ensures { result ≡ is_num sort }
{
    match sort {
        Sort::Num => true,
        Sort::Idx | Sort::Ptr => false,
    }
}

/// Whether a sort is idx.
pub fn is_idx(sort: Sort) -> bool
    ensures { result ≡ is_idx sort }
{
    match sort {
        Sort::Idx => true,
        Sort::Num | Sort::Ptr => false,
    }
}

/// Whether a sort is ptr.
pub fn is_ptr(sort: Sort) -> bool
    ensures { result ≡ is_ptr sort }
{
    match sort {
        Sort::Ptr => true,
        Sort::Num | Sort::Idx => false,
    }
}
