//! The clauses of a problem in their order, each rule over a whole clause before the next rule.

ghost use Rattle.std.specs.Prelude.{◌≡◌, ◌+◌, ◌<◌, ◌^◌, [], length};
ghost use Rattle.hp_sorts.specs.Symbols.{variables};
ghost use Rattle.hp_sorts.specs.Faults.{Answers, vars_fault, clause_passes, clause_is_sorted, atoms_fault, clause_fault, clauses_fault};

use crate::fault::SortErr;
use crate::naming::{NameRule, atoms_pass};
use crate::sorting::atoms_are_sorted;
use crate::tables::{SortTable, Tables};
use hp_tree::{Clause, Var};
use std::alloc::Global;

/// Tests the clauses, of which the first has the number behind `before`, up to the first that breaks a rule.
#[tactic(auto, using(crate::proofs::Walking::clauses_fault_rest))]
pub fn check_clauses(
    alloc: Global,
    tables: &Tables,
    before: u32,
    clauses: &[Clause],
) -> Result<(), SortErr>
    requires { before + length clauses.now < 2 ^ 28 }
    ensures { Answers (clauses_fault tables.now before clauses.now) (λ _. Unit {0}) result }
{
    let mut item = before;
    for clause in clauses {
        item += 1;
        check_clause(alloc, tables, item, clause)?;
    }
    Ok(())
}

/// Tests a clause, up to the first rule that it breaks.
fn check_clause(alloc: Global, tables: &Tables, item: u32, clause: &Clause) -> Result<(), SortErr>
    ensures { Answers (clause_fault tables.now item clause.now) (λ _. Unit {0}) result }
{
    let vars = variables(alloc, tables, item, clause.vars.as_slice())?;
    check_atoms(tables, &vars, item, clause)
}

/// The variables of a clause, unless one has a declared name or the name of an earlier one.
#[tactic(auto, using(crate::proofs::Walking::vars_fault_rest))]
fn variables(alloc: Global, tables: &Tables, item: u32, vars: &[Var]) -> Result<SortTable, SortErr>
    ensures { Answers (vars_fault tables.now item [] vars.now) (λ table. table ≡ variables vars.now) result }
{
    let mut table = SortTable::new(alloc);
    for var in vars {
        if tables.declares(&var.name) || table.names.contains(var.name.as_slice()) {
            return Err(SortErr::Twice { item });
        }
        table.insert(alloc, &var.name, var.sort)?;
    }
    Ok(table)
}

/// Tests the atoms of a clause, up to the first rule that one of them breaks.
fn check_atoms(tables: &Tables, vars: &SortTable, item: u32, clause: &Clause) -> Result<(), SortErr>
    ensures { Answers (atoms_fault tables.now vars.now item clause.now) (λ _. Unit {0}) result }
{
    if !clause_passes(tables, vars, NameRule::Known, clause) {
        return Err(SortErr::Unknown { item });
    }
    if !clause_passes(tables, vars, NameRule::Counted, clause) {
        return Err(SortErr::Arity { item });
    }
    if !clause_is_sorted(tables, vars, clause) {
        return Err(SortErr::Mismatch { item });
    }
    Ok(())
}

/// Whether the names of a clause meet the rule.
fn clause_passes(tables: &Tables, vars: &SortTable, rule: NameRule, clause: &Clause) -> bool
    ensures { result ≡ clause_passes tables.now vars.now rule clause.now }
{
    atoms_pass(tables, vars, rule, clause.guard.as_slice())
        && atoms_pass(tables, vars, rule, clause.head.as_slice())
}

/// Whether the atoms of a clause have their sorts.
fn clause_is_sorted(tables: &Tables, vars: &SortTable, clause: &Clause) -> bool
    ensures { result ≡ clause_is_sorted tables.now vars.now clause.now }
{
    atoms_are_sorted(tables, vars, clause.guard.as_slice())
        && atoms_are_sorted(tables, vars, clause.head.as_slice())
}
