//! Terms from their parts.
//! A term goes into a box where it comes to stand below another one.

ghost use Rattle.std.specs.Prelude.{◌≡◌, IfOk, Option, Some, None};
ghost use Rattle.hp_grammar.specs.Tree.{number_of, null, named, apply, add, sub, neg, scale};
ghost use Rattle.hp_body.specs.Machine.{scaled};

use hp_num::{Frac, List, Text};
use hp_tree::Term;
use sqlite_items::Boxed;
use std::alloc::{AllocError, Global};

#[tactic(auto, unfolding(hp_grammar::specs::Tree::number_of))]
pub(crate) fn number_term(q: Frac) -> Term
    ensures { result ≡ number_of q }
{
    Term::Number(q)
}

#[tactic(auto, unfolding(hp_grammar::specs::Tree::null))]
pub(crate) fn null_term() -> Term
    ensures { result ≡ null }
{
    Term::Null
}

#[tactic(auto, unfolding(hp_grammar::specs::Tree::named))]
pub(crate) fn name_term(name: Text) -> Term
    ensures { result ≡ named name }
{
    Term::Name(name)
}

#[tactic(auto, unfolding(hp_grammar::specs::Tree::apply))]
pub(crate) fn call_term(func: Text, args: List<Term>) -> Term
    ensures { result ≡ apply func args }
{
    Term::Apply { func, args }
}

#[tactic(auto, unfolding(hp_grammar::specs::Tree::add))]
pub(crate) fn sum_term(alloc: Global, left: Boxed<Term>, right: Term) -> Result<Term, AllocError>
    ensures { IfOk result (λ t. t ≡ add left right) }
{
    Ok(Term::Add(left, Boxed::new(alloc, right)?))
}

#[tactic(auto, unfolding(hp_grammar::specs::Tree::sub))]
pub(crate) fn difference_term(
    alloc: Global,
    left: Boxed<Term>,
    right: Term,
) -> Result<Term, AllocError>
    ensures { IfOk result (λ t. t ≡ sub left right) }
{
    Ok(Term::Sub(left, Boxed::new(alloc, right)?))
}

#[tactic(auto, unfolding(hp_grammar::specs::Tree::neg))]
pub(crate) fn negative_term(alloc: Global, inner: Term) -> Result<Term, AllocError>
    ensures { IfOk result (λ t. t ≡ neg inner) }
{
    Ok(Term::Neg(Boxed::new(alloc, inner)?))
}

#[tactic(auto, unfolding(hp_grammar::specs::Tree::scale))]
fn product_term(alloc: Global, factor: Frac, inner: Term) -> Result<Term, AllocError>
    ensures { IfOk result (λ t. t ≡ scale factor inner) }
{
    Ok(Term::Scale(factor, Boxed::new(alloc, inner)?))
}

/// The part with the factor.
pub(crate) fn scale_by(
    alloc: Global,
    number: Option<Frac>,
    factor: Term,
) -> Result<Term, AllocError>
    ensures { IfOk result (λ t. t ≡ scaled number factor) }
{
    match number {
        None => Ok(factor),
        Some(q) => product_term(alloc, q, factor),
    }
}
