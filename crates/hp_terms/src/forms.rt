//! What a term is among the terms of each sort, from what its parts are.

ghost use Rattle.std.specs.Prelude.{◌≡◌};
ghost use Rattle.hp_terms.specs.Sorting.{no_forms, sort_forms, has_form, number_forms, sum_forms, difference_forms, negation_forms, multiple_forms, relates};

use hp_num::Frac;
use hp_tree::{Cmp, Sort};

/// The sorts whose terms a term is one of, and whether it is a whole number that is written as one.
#[derive(Clone, Copy)]
pub struct Forms {
    pub num: bool,
    pub idx: bool,
    pub ptr: bool,
    pub whole: bool,
}

impl Forms {
    /// A term of no sort.
    pub fn none() -> Forms
        ensures { result ≡ no_forms }
    {
        Forms {
            num: false,
            idx: false,
            ptr: false,
            whole: false,
        }
    }

    /// A name or an application of this sort.
    pub fn of(sort: Sort) -> Forms
        ensures { result ≡ sort_forms sort }
    {
        match sort {
            Sort::Num => Forms {
                num: true,
                ..Forms::none()
            },
            Sort::Idx => Forms {
                idx: true,
                ..Forms::none()
            },
            Sort::Ptr => Forms {
                ptr: true,
                ..Forms::none()
            },
        }
    }

    /// A number, which may stand for a pointer or not.
    pub fn number(value: Frac, pointer: bool) -> Forms
        ensures { result ≡ number_forms (λ _. pointer) value }
    {
        let whole = value.den() == 1;
        Forms {
            num: true,
            idx: whole,
            ptr: pointer,
            whole,
        }
    }

    /// A sum of two terms.
    pub fn sum(left: Forms, right: Forms) -> Forms
        ensures { result ≡ sum_forms left right }
    {
        Forms {
            num: left.num && right.num,
            idx: (left.idx && right.whole) || (left.whole && right.idx),
            ptr: false,
            whole: false,
        }
    }

    /// A difference of two terms.
    pub fn difference(left: Forms, right: Forms) -> Forms
        ensures { result ≡ difference_forms left right }
    {
        Forms {
            num: left.num && right.num,
            idx: left.idx && right.whole,
            ptr: false,
            whole: false,
        }
    }

    /// A negated term.
    pub fn negation(inner: Forms) -> Forms
        ensures { result ≡ negation_forms inner }
    {
        Forms {
            num: inner.num,
            idx: inner.whole,
            ptr: false,
            whole: false,
        }
    }

    /// A number of copies of a term.
    pub fn multiple(inner: Forms) -> Forms
        ensures { result ≡ multiple_forms inner }
    {
        Forms {
            num: inner.num,
            idx: false,
            ptr: false,
            whole: false,
        }
    }

    /// Whether the term is one of this sort.
    pub fn has(self, sort: Sort) -> bool
        ensures { result ≡ has_form self sort }
    {
        match sort {
            Sort::Num => self.num,
            Sort::Idx => self.idx,
            Sort::Ptr => self.ptr,
        }
    }
}

/// Whether terms of the sort may be compared so: pointers are equal or not, and have no order.
pub fn relates(sort: Sort, cmp: Cmp) -> bool
    ensures { result ≡ relates sort cmp }
{
    match sort {
        Sort::Num | Sort::Idx => true,
        Sort::Ptr => match cmp {
            Cmp::Eq | Cmp::Ne => true,
            Cmp::Le | Cmp::Lt | Cmp::Ge | Cmp::Gt => false,
        },
    }
}
