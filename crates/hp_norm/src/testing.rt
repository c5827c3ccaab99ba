//! The test of a clause with variables: whether a number of its literals, or of those of num arguments, is too wide.

ghost use Rattle.std.specs.Prelude.{true};
ghost use Rattle.hp_tree.specs.declared.term.Term.{out-Term};
ghost use Rattle.hp_linear.specs.Answers.{Answers};
ghost use Rattle.hp_norm.specs.Scopes.{clause_scope, signature_named};
ghost use Rattle.hp_norm.specs.Testing.{HasRoom, argument_atom, places, tested, tested_apps, tested_args, tested_as, tested_atoms, tested_layer};

use crate::flat::FlatClause;
use crate::sorting::clause_sort;
use crate::standing::{Standing, hidden_atom, make_standing, stand_in};
use hp_defs::Names;
use hp_linear::literals;
use hp_lit::Refusal;
use hp_num::{List, Text};
use hp_tree::{Atom, Cmp, Sort, Term, Var};
use std::alloc::Global;

/// Tests the clause: its guard, whose atoms are to be false, its head, and the num arguments of the applications that are
/// left in it, with names that stand in for applications. `Wide` comes where a number of the literals has a magnitude above
/// 2^127 - 1, and `Memory` also where there are more than 2^26 variables or applications.
pub fn test_clause(alloc: Global, names: &Names, clause: &FlatClause) -> Result<(), Refusal>
    ensures { Answers (tested names.now clause.now) result }
{
    let standing = make_standing(alloc, names, clause)?;
    let vars = clause.vars.as_slice();
    test_atoms(
        alloc,
        names,
        vars,
        &standing,
        false,
        clause.guard.as_slice(),
    )?;
    test_atoms(alloc, names, vars, &standing, true, clause.head.as_slice())?;
    test_apps(alloc, names, &standing)
}

/// Tests atoms that are to be true, or, where they are not `positive`, false.
fn test_atoms(
    alloc: Global,
    names: &Names,
    vars: &[Var],
    standing: &Standing,
    positive: bool,
    atoms: &[Atom],
) -> Result<(), Refusal>
    requires { HasRoom standing.now }
    ensures { Answers (tested_atoms (clause_scope names.now vars.now) standing.now positive atoms.now) result }
{
    for atom in atoms {
        test_as(
            alloc,
            clause_sort(names, vars, atom),
            standing,
            positive,
            atom,
        )?;
    }
    Ok(())
}

/// Tests an atom of this sort: only num atoms can be too wide.
fn test_as(
    alloc: Global,
    sort: Sort,
    standing: &Standing,
    positive: bool,
    atom: &Atom,
) -> Result<(), Refusal>
    requires { HasRoom standing.now }
    ensures { Answers (tested_as sort standing.now positive atom.now) result }
{
    match sort {
        Sort::Num => {
            let flat = hidden_atom(alloc, standing, atom)?;
            let mut lits = List::new(alloc);
            literals(alloc, &standing.words, positive, &flat, &mut lits)
        }
        Sort::Idx | Sort::Ptr => Ok(()),
    }
}

/// Tests the num arguments of all applications.
fn test_apps(alloc: Global, names: &Names, standing: &Standing) -> Result<(), Refusal>
    requires { HasRoom standing.now }
    ensures { Answers (tested_apps names.now standing.now standing.now.apps) result }
{
    for app in standing.apps.as_slice() {
        test_app(alloc, names, standing, app)?;
    }
    Ok(())
}

/// Tests the num arguments of an application.
fn test_app(alloc: Global, names: &Names, standing: &Standing, app: &Term) -> Result<(), Refusal>
    requires { HasRoom standing.now }
    ensures { Answers (tested_layer names.now standing.now (out-Term app.now)) result }
{
    match app {
        Term::Apply { func, args } => test_args_of(alloc, names, standing, func, args.as_slice()),
        _ => Ok(()),
    }
}

/// Tests the arguments that stand at num places of a function.
fn test_args_of(
    alloc: Global,
    names: &Names,
    standing: &Standing,
    func: &Text,
    args: &[Term],
) -> Result<(), Refusal>
    requires { HasRoom standing.now }
    ensures { Answers (tested_args standing.now (places (signature_named names.now func.now)) args.now) result }
{
    match names.function(func.as_slice()) {
        Some(at) => test_args(alloc, standing, names.signature(at).args.as_slice(), args),
        None => Ok(()),
    }
}

/// Tests arguments at places of these sorts.
fn test_args(
    alloc: Global,
    standing: &Standing,
    sorts: &[Sort],
    args: &[Term],
) -> Result<(), Refusal>
    requires { HasRoom standing.now }
    ensures { Answers (tested_args standing.now sorts.now args.now) result }
{
    for (at, arg) in args.iter().enumerate() {
        if at >= sorts.len() {
            return Ok(());
        }
        test_argument(alloc, standing, sorts[at], arg)?;
    }
    Ok(())
}

/// Tests an argument of this sort: that one more name is equal to it.
fn test_argument(alloc: Global, standing: &Standing, sort: Sort, arg: &Term) -> Result<(), Refusal>
    requires { HasRoom standing.now }
    ensures { Answers (tested_as sort standing.now true (argument_atom standing.now arg.now)) result }
{
    let name = stand_in(alloc, standing, standing.apps.len())?;
    let atom = Atom {
        left: Term::Name(name),
        cmp: Cmp::Eq,
        right: arg.copy(alloc)?,
    };
    test_as(alloc, sort, standing, true, &atom)
}
