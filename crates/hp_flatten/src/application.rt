//! The applications in a clause.

ghost use Rattle.std.specs.Prelude.{◌≡◌, [], ◌∷◌, ◌++◌, map, IfOk, OnOk};
ghost use Rattle.hp_terms.specs.Occurring.{joined};
ghost use Rattle.hp_flatten.specs.Applications.{applications, atoms_applications, clause_applications};

use hp_norm::FlatClause;
use hp_num::{List, Text};
use hp_tree::{Atom, Term};
use std::alloc::{AllocError, Global};

/// A function by its word, at arguments.
#[derive(Drop)]
pub struct Application {
    pub func: Text,
    pub args: List<Term>,
}

/// The applications in a flat clause, each as often as it stands there: those of the guard and then those of the head, one
/// before those in its arguments, in the order of the text. `Err` says that memory was wanting.
pub fn clause_applications(
    alloc: Global,
    clause: &FlatClause,
) -> Result<List<Application>, AllocError>
    ensures { IfOk result (λ found. found ≡ clause_applications clause.now) }
{
    let mut found = List::new(alloc);
    add_atoms(alloc, clause.guard.as_slice(), &mut found)?;
    add_atoms(alloc, clause.head.as_slice(), &mut found)?;
    Ok(found)
}

/// Adds the applications in atoms behind those that are there, left sides first.
fn add_atoms(alloc: Global, atoms: &[Atom], found: &mut List<Application>) -> Result<(), AllocError>
    ensures { OnOk result (found.new ≡ found.old ++ atoms_applications atoms.now) }
{
    for atom in atoms {
        add_term(alloc, &atom.left, found)?;
        add_term(alloc, &atom.right, found)?;
    }
    Ok(())
}

/// Adds the applications in a term behind those that are there, one before those in its arguments.
#[cycle(add_term)]
fn add_term(alloc: Global, term: &Term, found: &mut List<Application>) -> Result<(), AllocError>
    ensures { OnOk result (found.new ≡ found.old ++ applications term.now) }
{
    match term {
        Term::Number(_) | Term::Null | Term::Name(_) => Ok(()),
        Term::Apply { func, args } => {
            let args = args.as_slice();
            add_application(alloc, func, args, found)?;
            add_terms(alloc, args, found)
        }
        Term::Add(left, right) | Term::Sub(left, right) => {
            add_term(alloc, left.get(), found)?;
            add_term(alloc, right.get(), found)
        }
        Term::Neg(inner) | Term::Scale(_, inner) => add_term(alloc, inner.get(), found),
    }
}

/// Adds the applications in these terms, from left to right.
#[cycle(add_term)]
fn add_terms(alloc: Global, terms: &[Term], found: &mut List<Application>) -> Result<(), AllocError>
    ensures { OnOk result (found.new ≡ found.old ++ joined (map applications terms.now)) }
{
    for term in terms {
        add_term(alloc, term, found)?;
    }
    Ok(())
}

/// Adds the function at these arguments.
fn add_application(
    alloc: Global,
    func: &Text,
    args: &[Term],
    found: &mut List<Application>,
) -> Result<(), AllocError>
    ensures { OnOk result (found.new ≡ found.old ++ record { func = func.now; args = args.now } ∷ []) }
{
    let application = Application {
        func: func.copy(alloc)?,
        args: copy_terms(alloc, args)?,
    };
    found.push(application)
}

/// Equal terms in their order.
fn copy_terms(alloc: Global, terms: &[Term]) -> Result<List<Term>, AllocError>
    ensures { IfOk result (λ all. all ≡ terms.now) }
{
    let mut all = List::new(alloc);
    for term in terms {
        all.push(term.copy(alloc)?)?;
    }
    Ok(all)
}
