//! Index terms, collected from inside out to a name plus a whole number.
//!
//! No number that is collected passes 4 * 10^24 in magnitude, so that no sum of two of them wraps.

ghost use Rattle.std.specs.Prelude.{◌≡◌, ◌<◌, ◌≤◌, ◌^◌, MatchOption, length};
ghost use Rattle.hp_terms.specs.Weight.{weight};
ghost use Rattle.hp_index.specs.Forms.{above, index_of, minus_form, plus_form};
ghost use Rattle.hp_index.specs.Fit.{IsSmallSide, largest_side};

use crate::words::name_of;
use hp_lit::Name;
use hp_names::NameIndex;
use hp_tree::Term;

/// The largest magnitude of a whole number beside a name.
const LARGEST_SIDE: i128 = 4_000_000_000_000_000_000_000_000;

/// A name plus a whole number; without a name, the number alone.
#[derive(Clone, Copy, Debug, PartialEq, Eq)]
pub struct IndexForm {
    pub base: Option<Name>,
    pub offset: i128,
}

/// The form, where the magnitude of its number is at most 4 * 10^24.
fn small(base: Option<Name>, offset: i128) -> Option<IndexForm>
    ensures { MatchOption result (IsSmallSide offset → ⊥) (λ form. (form ≡ above base offset) × IsSmallSide offset) }
{
    if -LARGEST_SIDE <= offset && offset <= LARGEST_SIDE {
        Some(IndexForm { base, offset })
    } else {
        None
    }
}

/// The sum of two forms of which one is a number alone.
fn sum(left: IndexForm, right: IndexForm) -> Option<IndexForm>
    requires left { IsSmallSide left.offset }
    requires right { IsSmallSide right.offset }
    ensures { MatchOption result (IsSmallSide (plus_form left right).offset → ⊥) (λ form. (form ≡ plus_form left right) × IsSmallSide (plus_form left right).offset) }
{
    small(left.base.or(right.base), left.offset + right.offset)
}

/// The first form without the second, a number alone.
fn difference(left: IndexForm, right: IndexForm) -> Option<IndexForm>
    requires left { IsSmallSide left.offset }
    requires right { IsSmallSide right.offset }
    ensures { MatchOption result (IsSmallSide (minus_form left right).offset → ⊥) (λ form. (form ≡ minus_form left right) × IsSmallSide (minus_form left right).offset) }
{
    small(left.base, left.offset - right.offset)
}

/// The form of an index term over these words: a name, by its place among them from 0, plus a whole number.
///
/// An index term is a whole number or the negation of one, a word, the sum of an index term and a whole number in either
/// order, or an index term without a whole number. The caller knows the sort: a word that is none of these is nothing, and
/// so are null, applications and multiples.
///
/// The number has a magnitude of at most 4 * 10^24. `None` comes only where the magnitudes of the numerators of the
/// term's numbers add up to more. It asks for fewer than 2^28 words.
pub fn index_form(index: &NameIndex, term: &Term) -> Option<IndexForm>
    requires { length index.now < 2 ^ 28 }
    ensures { MatchOption result (weight term.now ≤ largest_side → ⊥) (λ form. (form ≡ index_of index.now term.now) × IsSmallSide form.offset) }
{
    match term {
        Term::Number(n) => small(None, n.num()),
        Term::Name(name) => Some(IndexForm {
            base: name_of(index, name.as_slice()),
            offset: 0,
        }),
        Term::Add(left, right) => match index_form(index, left.get()) {
            None => None,
            Some(first) => match index_form(index, right.get()) {
                None => None,
                Some(second) => sum(first, second),
            },
        },
        Term::Sub(left, right) => match index_form(index, left.get()) {
            None => None,
            Some(first) => match index_form(index, right.get()) {
                None => None,
                Some(second) => difference(first, second),
            },
        },
        Term::Neg(inner) => match index_form(index, inner.get()) {
            None => None,
            Some(form) => Some(IndexForm {
                base: None,
                offset: -form.offset,
            }),
        },
        Term::Null | Term::Apply { .. } | Term::Scale(_, _) => Some(IndexForm {
            base: None,
            offset: 0,
        }),
    }
}
