//! The linear form of a term, from inside out, the left operand first.

ghost use Rattle.std.specs.Prelude.{◌≡◌, ◌<◌, ◌^◌, length};
ghost use Rattle.hp_lit.specs.Words.{number};
ghost use Rattle.hp_linear.specs.Lins.{lin_of};
ghost use Rattle.hp_linear.specs.Answers.{Answers};

use crate::lin::{minus_lin, neg_lin, number_lin, plus_lin, times_lin, word_lin, zero_lin};
use hp_lit::{Lin, Name, Refusal};
use hp_names::NameIndex;
use hp_tree::Term;
use std::alloc::Global;

/// The name that a word stands for, by its place among the words.
fn place(index: &NameIndex, word: &[u8]) -> Option<Name>
    requires { length index.now < 2 ^ 28 }
    ensures { result ≡ number index.now word.now }
{
    match index.position(word) {
        Some(at) => Some(Name(at as u32)),
        None => None,
    }
}

/// The form of a term of sort num over these words, whose names are their places from 0. Null, an application and any
/// other word count as 0.
///
/// `Wide` comes at the first number of the computation, left before right and inner before outer, that has a magnitude
/// above 2^127 - 1. It asks for fewer than 2^28 words.
pub fn linear_form(alloc: Global, index: &NameIndex, term: &Term) -> Result<Lin, Refusal>
    requires { length index.now < 2 ^ 28 }
    ensures { Answers (lin_of index.now term.now) result }
{
    match term {
        Term::Number(n) => Ok(number_lin(alloc, *n)),
        Term::Null | Term::Apply { .. } => Ok(zero_lin(alloc)),
        Term::Name(word) => word_lin(alloc, place(index, word.as_slice())),
        Term::Add(left, right) => {
            let first = linear_form(alloc, index, left.get())?;
            let second = linear_form(alloc, index, right.get())?;
            plus_lin(alloc, &first, &second)
        }
        Term::Sub(left, right) => {
            let first = linear_form(alloc, index, left.get())?;
            let second = linear_form(alloc, index, right.get())?;
            minus_lin(alloc, &first, &second)
        }
        Term::Neg(inner) => {
            let form = linear_form(alloc, index, inner.get())?;
            neg_lin(alloc, &form)
        }
        Term::Scale(number, inner) => {
            let form = linear_form(alloc, index, inner.get())?;
            times_lin(alloc, *number, &form)
        }
    }
}
