//! Clauses of monotone shape, in their sixteen written forms.
ghost use Rattle.std.specs.Prelude.{◌≡◌, ◌&&◌, map};
ghost use Rattle.hp_tree.specs.Value.{Word};
ghost use Rattle.hp_shapes.specs.Shapes.{atoms_form, form_from, form_of, is_name, is_num, is_value, look, one_named, sides_from, sides_of, turning};

use hp_num::Text;
use hp_tree::{Atom, Cmp, Sort, Term, Var};

/// How a clause of monotone shape is written.
#[derive(Clone, Copy, Drop)]
pub struct Form {
    /// Whether the guard calls the first variable the lower one.
    pub first_lower: bool,
    /// Whether the function rises; else it falls.
    pub rising: bool,
    /// Whether the guard is written with `>=`.
    pub guard_turned: bool,
    /// Whether the head is written with `>=`.
    pub head_turned: bool,
}

/// What an atom says of two terms.
#[derive(Clone, Copy, Drop)]
pub struct Sides {
    /// Whether the first one is said to be at most the second one; else it is the other way round.
    pub first_less: bool,
    /// Whether it is written with `>=`.
    pub turned: bool,
}

/// The form of a clause of monotone shape over a function, or `None` where it has no such shape: two num variables, a guard
/// that compares them by `<=` or `>=`, and a head that compares the function's values at them so.
pub fn form_of(func: &Text, vars: &[Var], guard: &[Atom], head: &[Atom]) -> Option<Form>
    ensures { result ≡ form_of func.now vars.now guard.now head.now }
{
    if vars.len() == 2 && guard.len() == 1 && head.len() == 1 {
        atoms_form(func, &vars[0], &vars[1], &guard[0], &head[0])
    } else {
        None
    }
}

fn atoms_form(func: &Text, x: &Var, y: &Var, guard: &Atom, head: &Atom) -> Option<Form>
    ensures { result ≡ atoms_form func.now x.now y.now guard.now head.now }
{
    if is_num(x.sort) && is_num(y.sort) {
        let guard = name_sides(&x.name, &y.name, guard);
        let head = value_sides(func, &x.name, &y.name, head);
        form_from(guard, head)
    } else {
        None
    }
}

fn is_num(sort: Sort) -> bool
    ensures { result ≡ is_num sort }
{
    match sort {
        Sort::Num => true,
        Sort::Idx => false,
        Sort::Ptr => false,
    }
}

/// The form that these sides of the guard and of the head give.
fn form_from(guard: Option<Sides>, head: Option<Sides>) -> Option<Form>
    ensures { result ≡ form_from guard head }
{
    match guard {
        None => None,
        Some(guard) => match head {
            None => None,
            Some(head) => Some(Form {
                first_lower: guard.first_less,
                rising: if guard.first_less {
                    head.first_less
                } else {
                    !head.first_less
                },
                guard_turned: guard.turned,
                head_turned: head.turned,
            }),
        },
    }
}

/// The sides of an atom that compares two names.
fn name_sides(x: &Text, y: &Text, atom: &Atom) -> Option<Sides>
    ensures { (func : Word) → result ≡ sides_of (is_name func) x.now y.now atom.now }
{
    let forward = both(is_name(x, &atom.left), is_name(y, &atom.right));
    let backward = both(is_name(y, &atom.left), is_name(x, &atom.right));
    sides_from(forward, backward, turning(atom.cmp))
}

/// The sides of an atom that compares the values of a function at two names.
fn value_sides(func: &Text, x: &Text, y: &Text, atom: &Atom) -> Option<Sides>
    ensures { result ≡ sides_of (is_value func.now) x.now y.now atom.now }
{
    let forward = both(
        is_value(func, x, &atom.left),
        is_value(func, y, &atom.right),
    );
    let backward = both(
        is_value(func, y, &atom.left),
        is_value(func, x, &atom.right),
    );
    sides_from(forward, backward, turning(atom.cmp))
}

fn both(left: bool, right: bool) -> bool
    ensures { result ≡ (left && right) }
{
    left && right
}

/// The sides of an atom whose terms are the two in this order, or in the other one.
fn sides_from(forward: bool, backward: bool, turning: Option<bool>) -> Option<Sides>
    ensures { result ≡ sides_from forward backward turning }
{
    match turning {
        None => None,
        Some(turned) => {
            if forward {
                Some(Sides {
                    first_less: !turned,
                    turned,
                })
            } else if backward {
                Some(Sides {
                    first_less: turned,
                    turned,
                })
            } else {
                None
            }
        }
    }
}

/// Whether a relation is `>=`, where it is that or `<=`.
fn turning(cmp: Cmp) -> Option<bool>
    ensures { result ≡ turning cmp }
{
    match cmp {
        Cmp::Le => Some(false),
        Cmp::Ge => Some(true),
        Cmp::Lt => None,
        Cmp::Eq => None,
        Cmp::Ne => None,
        Cmp::Gt => None,
    }
}

/// Whether a term is this name.
fn is_name(word: &Text, term: &Term) -> bool
    ensures { (func : Word) → result ≡ is_name func word.now term.now }
{
    match term {
        Term::Name(name) => name.as_slice() == word.as_slice(),
        Term::Number(_) => false,
        Term::Null => false,
        Term::Apply { .. } => false,
        Term::Add(_, _) => false,
        Term::Sub(_, _) => false,
        Term::Neg(_) => false,
        Term::Scale(_, _) => false,
    }
}

/// Whether terms are this name alone.
fn one_named(word: &Text, terms: &[Term]) -> bool
    ensures { (func : Word) → result ≡ one_named (map (look func word.now) terms.now) }
{
    terms.len() == 1 && is_name(word, &terms[0])
}

/// Whether a term is the function at this name.
fn is_value(func: &Text, word: &Text, term: &Term) -> bool
    ensures { result ≡ is_value func.now word.now term.now }
{
    match term {
        Term::Apply {
            func: applied,
            args,
        } => { applied.as_slice() == func.as_slice() && one_named(word, args.as_slice()) }
        Term::Name(_) => false,
        Term::Number(_) => false,
        Term::Null => false,
        Term::Add(_, _) => false,
        Term::Sub(_, _) => false,
        Term::Neg(_) => false,
        Term::Scale(_, _) => false,
    }
}
