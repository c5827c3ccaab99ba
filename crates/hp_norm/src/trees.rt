//! Terms as trees: when two terms are the same, and the different applications in a term.

ghost use Rattle.std.specs.Prelude.{◌≡◌, OnOk, map};
ghost use Rattle.hp_norm.specs.Trees.{SameTermsAreEqual, all_same, gathered, one_by_one, same_term};

use crate::term_index::TermIndex;
use hp_tree::Term;
use std::alloc::{AllocError, Global};

/// Whether two terms are the same tree, with the same words and numbers.
#[cycle(same)]
pub fn same_term(left: &Term, right: &Term) -> bool
    ensures { result ≡ same_term left.now right.now }
{
    match (left, right) {
        (Term::Number(q), Term::Number(r)) => *q == *r,
        (Term::Null, Term::Null) => true,
        (Term::Name(word), Term::Name(other)) => word.as_slice() == other.as_slice(),
        (
            Term::Apply { func, args },
            Term::Apply {
                func: other,
                args: terms,
            },
        ) => { func.as_slice() == other.as_slice() && all_same(args.as_slice(), terms.as_slice()) }
        (Term::Add(a, b), Term::Add(s, t)) | (Term::Sub(a, b), Term::Sub(s, t)) => {
            same_term(a.get(), s.get()) && same_term(b.get(), t.get())
        }
        (Term::Neg(a), Term::Neg(s)) => same_term(a.get(), s.get()),
        (Term::Scale(q, a), Term::Scale(r, s)) => *q == *r && same_term(a.get(), s.get()),
        _ => false,
    }
}

/// Whether the terms of two lists are the same, place by place, and as many.
#[cycle(same)]
fn all_same(left: &[Term], right: &[Term]) -> bool
    ensures { result ≡ all_same (map same_term left.now) right.now }
{
    if left.len() != right.len() {
        return false;
    }
    for (at, term) in left.iter().enumerate() {
        if !same_term(term, &right[at]) {
            return false;
        }
    }
    true
}

/// Adds the applications in a term that are not there yet behind those that are, arguments before what is applied to them
/// and from left to right. An error comes where memory is short.
#[cycle(gather)]
pub fn gather(alloc: Global, term: &Term, apps: &mut TermIndex) -> Result<(), AllocError>
    ensures { OnOk result (apps.new ≡ gathered term.now apps.old) }
{
    match term {
        Term::Number(_) | Term::Null | Term::Name(_) => Ok(()),
        Term::Apply { args, .. } => {
            gather_all(alloc, args.as_slice(), apps)?;
            apps.note(alloc, term)
        }
        Term::Add(left, right) | Term::Sub(left, right) => {
            gather(alloc, left.get(), apps)?;
            gather(alloc, right.get(), apps)
        }
        Term::Neg(inner) | Term::Scale(_, inner) => gather(alloc, inner.get(), apps),
    }
}

/// Adds the applications in these terms, from left to right.
#[cycle(gather)]
fn gather_all(alloc: Global, terms: &[Term], apps: &mut TermIndex) -> Result<(), AllocError>
    ensures { OnOk result (apps.new ≡ one_by_one (map gathered terms.now) apps.old) }
{
    for term in terms {
        gather(alloc, term, apps)?;
    }
    Ok(())
}

/// The test of two terms holds exactly where they are equal. It has no cause to fail: nothing is computed.
pub fn same_terms_are_equal()
    ensures { SameTermsAreEqual }
{}
