//! Cases, and the bounds that clauses give.

ghost use Rattle.std.specs.Prelude.{◌≡◌, IfOk};
ghost use Rattle.hp_tree.specs.declared.term.Term.{out-Term};
ghost use Rattle.hp_cases.specs.Bounds.{applies_it, atom_bound, bound_left, bound_right, head_bound};

use hp_num::{List, Text};
use hp_tree::{Atom, Cmp, Term};
use std::alloc::{AllocError, Global};

/// What a clause asks of the value of its function.
#[derive(Drop)]
pub enum Bound {
    /// It is at least this term.
    Low(Term),
    /// It is at most this term.
    High(Term),
    /// It is this term.
    Same(Term),
}

/// A case of a function: a guard over constants, definitions and the words of the arguments, `$1` to `$4`, and the bounds of
/// the function where it is true, of which at least one is there.
#[derive(Drop)]
pub struct Case {
    pub guard: List<Atom>,
    pub low: Option<Term>,
    pub high: Option<Term>,
}

/// The bound that a head gives the value of a function, or `None` where it isn't one atom by `<=`, `>=` or `=` with the
/// function alone on one side. `Err` says that memory was wanting.
pub fn head_bound(alloc: Global, func: &Text, head: &[Atom]) -> Result<Option<Bound>, AllocError>
    ensures { IfOk result (λ bound. bound ≡ head_bound func.now head.now) }
{
    if head.len() == 1 {
        atom_bound(alloc, func, &head[0])
    } else {
        Ok(None)
    }
}

/// The bound that an atom gives, with the function alone on one side.
fn atom_bound(alloc: Global, func: &Text, atom: &Atom) -> Result<Option<Bound>, AllocError>
    ensures { IfOk result (λ bound. bound ≡ atom_bound func.now atom.now) }
{
    if applies_it(func, &atom.left) {
        Ok(bound_right(atom.cmp, atom.right.copy(alloc)?))
    } else if applies_it(func, &atom.right) {
        Ok(bound_left(atom.cmp, atom.left.copy(alloc)?))
    } else {
        Ok(None)
    }
}

/// Whether a term is an application of the function.
fn applies_it(func: &Text, term: &Term) -> bool
    ensures { result ≡ applies_it func.now (out-Term term.now) }
{
    match term {
        Term::Apply { func: applied, .. } => applied.as_slice() == func.as_slice(),
        Term::Number(_) => false,
        Term::Null => false,
        Term::Name(_) => false,
        Term::Add(_, _) => false,
        Term::Sub(_, _) => false,
        Term::Neg(_) => false,
        Term::Scale(_, _) => false,
    }
}

/// What the term on the right of a relation is to the value on the left of it.
fn bound_right(cmp: Cmp, term: Term) -> Option<Bound>
    ensures { result ≡ bound_right cmp term }
{
    match cmp {
        Cmp::Le => Some(Bound::High(term)),
        Cmp::Ge => Some(Bound::Low(term)),
        Cmp::Eq => Some(Bound::Same(term)),
        Cmp::Lt => None,
        Cmp::Gt => None,
        Cmp::Ne => None,
    }
}

/// What the term on the left of a relation is to the value on the right of it.
fn bound_left(cmp: Cmp, term: Term) -> Option<Bound>
    ensures { result ≡ bound_left cmp term }
{
    match cmp {
        Cmp::Le => Some(Bound::Low(term)),
        Cmp::Ge => Some(Bound::High(term)),
        Cmp::Eq => Some(Bound::Same(term)),
        Cmp::Lt => None,
        Cmp::Gt => None,
        Cmp::Ne => None,
    }
}
