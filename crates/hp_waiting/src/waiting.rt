//! The form of the clauses with variables.

ghost use Rattle.std.specs.Prelude.{◌≡◌, None, IfOk};
ghost use Rattle.std.specs.List.{list_any};
ghost use Rattle.hp_waiting.specs.Waiting.{are_level, fits_level, has_pointer_variable, is_at, is_ptr, is_waiting, level_of};

use crate::applications::add_clauses;
use crate::functions::{Function, declared_functions, function_named, is_ptr};
use hp_num::{List, Text};
use hp_tree::{Clause, Decl, Problem, Var};
use std::alloc::{AllocError, Global};

/// Whether a problem is of a form that isn't decided so far: a clause has a variable of sort ptr, an application with a variable
/// in it has this sort in its signature, or two such applications have functions of different levels. `Err` says that memory
/// was wanting.
pub fn is_waiting(alloc: Global, p: &Problem) -> Result<bool, AllocError>
    ensures { IfOk result (λ waits. waits ≡ is_waiting p.now) }
{
    if have_pointer_variable(p.clauses.as_slice()) {
        return Ok(true);
    }
    let mut words = List::new(alloc);
    add_clauses(alloc, p.clauses.as_slice(), &mut words)?;
    let level = are_level(alloc, p.decls.as_slice(), words.as_slice())?;
    Ok(!level)
}

/// Whether a clause has a variable of sort ptr.
fn have_pointer_variable(clauses: &[Clause]) -> bool
    ensures { result ≡ list_any has_pointer_variable clauses.now }
{
    clauses
        .iter()
        .any(|clause| has_pointer(clause.vars.as_slice()))
}

/// Whether one of these variables is of sort ptr.
fn has_pointer(vars: &[Var]) -> bool
    ensures { result ≡ list_any (λ v. is_ptr v.sort) vars.now }
{
    vars.iter().any(|var| is_ptr(var.sort))
}

/// Whether the functions of these words are all declared, without pointers, and on one level.
fn are_level(alloc: Global, decls: &[Decl], words: &[Text]) -> Result<bool, AllocError>
    ensures { IfOk result (λ level. level ≡ are_level decls.now None words.now) }
{
    let table = declared_functions(alloc, decls)?;
    let mut level = None;
    for word in words {
        let function = function_named(&table, word.as_slice());
        if !is_at(level, function) {
            return Ok(false);
        }
        level = level_of(function);
    }
    Ok(true)
}

/// Whether there is a function, it takes and gives no pointer, and it is on this level where one is given.
fn is_at(level: Option<u64>, function: Option<Function>) -> bool
    ensures { result ≡ is_at level function }
{
    match function {
        None => false,
        Some(function) => !function.pointer && fits_level(level, function.level),
    }
}

/// Whether a level is this one, where one is given.
fn fits_level(level: Option<u64>, other: u64) -> bool
    ensures { result ≡ fits_level level other }
{
    match level {
        None => true,
        Some(level) => level == other,
    }
}

/// The level of a function, where there is one.
fn level_of(function: Option<Function>) -> Option<u64>
    ensures { result ≡ level_of function }
{
    match function {
        None => None,
        Some(function) => Some(function.level),
    }
}
