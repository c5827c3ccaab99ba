//! The functions of the applications in which a variable occurs.

ghost use Rattle.std.specs.Prelude.{◌≡◌, ◌++◌, map, OnOk};
ghost use Rattle.std.specs.List.{flat_map};
ghost use Rattle.hp_terms.specs.Occurring.{joined};
ghost use Rattle.hp_waiting.specs.Waiting.{atom_functions, clause_functions, open_functions};

use hp_norm::mentions;
use hp_num::{List, Text};
use hp_tree::{Atom, Clause, Term, Var};
use std::alloc::{AllocError, Global};

/// Adds the functions of the applications in clauses in which a variable of the clause occurs, once for each application, in
/// the order of the text with guards first. An error comes where memory is short; some may have been added then.
pub fn add_clauses(
    alloc: Global,
    clauses: &[Clause],
    words: &mut List<Text>,
) -> Result<(), AllocError>
    ensures { OnOk result (words.new ≡ words.old ++ flat_map clause_functions clauses.now) }
{
    for clause in clauses {
        add_clause(alloc, clause, words)?;
    }
    Ok(())
}

/// Adds the functions of a clause.
fn add_clause(alloc: Global, clause: &Clause, words: &mut List<Text>) -> Result<(), AllocError>
    ensures { OnOk result (words.new ≡ words.old ++ clause_functions clause.now) }
{
    let vars = clause.vars.as_slice();
    add_atoms(alloc, vars, clause.guard.as_slice(), words)?;
    add_atoms(alloc, vars, clause.head.as_slice(), words)
}

/// Adds the functions of atoms, left sides first.
fn add_atoms(
    alloc: Global,
    vars: &[Var],
    atoms: &[Atom],
    words: &mut List<Text>,
) -> Result<(), AllocError>
    ensures { OnOk result (words.new ≡ words.old ++ flat_map (atom_functions vars.now) atoms.now) }
{
    for atom in atoms {
        add_term(alloc, vars, &atom.left, words)?;
        add_term(alloc, vars, &atom.right, words)?;
    }
    Ok(())
}

/// Adds the functions of a term, each before those in its arguments. An application without variables has none in it.
#[cycle(add)]
fn add_term(
    alloc: Global,
    vars: &[Var],
    term: &Term,
    words: &mut List<Text>,
) -> Result<(), AllocError>
    ensures { OnOk result (words.new ≡ words.old ++ open_functions vars.now term.now) }
{
    match term {
        Term::Number(_) | Term::Null | Term::Name(_) => Ok(()),
        Term::Apply { func, args } => {
            if mentions(vars, term) {
                words.push(func.copy(alloc)?)?;
                add_terms(alloc, vars, args.as_slice(), words)
            } else {
                Ok(())
            }
        }
        Term::Add(left, right) | Term::Sub(left, right) => {
            add_term(alloc, vars, left.get(), words)?;
            add_term(alloc, vars, right.get(), words)
        }
        Term::Neg(inner) | Term::Scale(_, inner) => add_term(alloc, vars, inner.get(), words),
    }
}

/// Adds the functions of terms, from left to right.
#[cycle(add)]
fn add_terms(
    alloc: Global,
    vars: &[Var],
    terms: &[Term],
    words: &mut List<Text>,
) -> Result<(), AllocError>
    ensures { OnOk result (words.new ≡ words.old ++ joined (map (open_functions vars.now) terms.now)) }
{
    for term in terms {
        add_term(alloc, vars, term, words)?;
    }
    Ok(())
}
