//! The functions of clauses: which are of num to num, and which have a clause of monotone shape.

ghost use Rattle.std.specs.Prelude.{◌≡◌, ◌<◌, length, option_and_then, IfOk, IfSome};
ghost use Rattle.std.specs.List.{list_all, list_any};
ghost use Rattle.hp_class.specs.Frame.{is_place};
ghost use Rattle.hp_rules.specs.Rules.{application_place, are_num, first_word, form_over, function_place, is_num_function, is_taken, monotone_place, monotone_places};

use hp_defs::Names;
use hp_flatten::{Application, clause_applications, is_num};
use hp_norm::FlatClause;
use hp_num::{List, Text};
use hp_shapes::form_of;
use hp_tree::Sort;
use std::alloc::{AllocError, Global};

/// The place of the function of an application in the order of declarations, counted from 0.
pub fn application_place(names: &Names, app: &Application) -> Option<u32>
    ensures place { result ≡ application_place names.now app.now }
    ensures within { IfSome result (λ func. func < length names.now.signatures) }
{
    names.function(app.func.as_slice())
}

/// Whether the functions of applications are of num to num.
pub fn are_num_functions(names: &Names, apps: &[Application]) -> bool
    ensures { result ≡ list_all (λ a. is_num_function names.now (application_place names.now a)) apps.now }
{
    apps.iter().all(|app| applies_num(names, app))
}

/// Whether the function of an application is of num to num.
fn applies_num(names: &Names, app: &Application) -> bool
    ensures { result ≡ is_num_function names.now (application_place names.now app.now) }
{
    match application_place(names, app) {
        None => false,
        Some(func) => {
            let signature = names.signature(func);
            are_num(signature.args.as_slice()) && is_num(signature.result)
        }
    }
}

/// Whether sorts are num alone.
fn are_num(sorts: &[Sort]) -> bool
    ensures { result ≡ are_num sorts.now }
{
    sorts.iter().all(|sort| is_num(*sort))
}

/// Whether an application is of a function with a clause of monotone shape, which is own in an earlier clause.
pub fn is_any_taken(names: &Names, monotone: &[u32], owned: &[u32], apps: &[Application]) -> bool
    ensures { result ≡ list_any (λ a. is_taken monotone.now owned.now (application_place names.now a)) apps.now }
{
    apps.iter().any(|app| is_taken(monotone, owned, application_place(names, app)))
}

/// The same of the function at this place.
fn is_taken(monotone: &[u32], owned: &[u32], func: Option<u32>) -> bool
    ensures { result ≡ is_taken monotone.now owned.now func }
{
    match func {
        None => false,
        Some(func) => is_place(monotone, func) && is_place(owned, func),
    }
}

/// Whether a function is one of these.
fn is_place(funcs: &[u32], func: u32) -> bool
    ensures { result ≡ is_place funcs.now func }
{
    funcs.iter().any(|other| *other == func)
}

/// The functions of clauses of monotone shape, in the order of the clauses.
pub fn monotone_places(
    alloc: Global,
    names: &Names,
    clauses: &[FlatClause],
) -> Result<List<u32>, AllocError>
    ensures { IfOk result (λ places. places ≡ monotone_places names.now clauses.now) }
{
    let mut places = List::new(alloc);
    for clause in clauses {
        let apps = clause_applications(alloc, clause)?;
        match monotone_place(names, clause, apps.as_slice()) {
            None => {}
            Some(func) => places.push(func)?,
        }
    }
    Ok(places)
}

/// The function of a clause of monotone shape with these applications, by its place in the order of declarations, counted from
/// 0.
pub fn monotone_place(names: &Names, clause: &FlatClause, apps: &[Application]) -> Option<u32>
    ensures { result ≡ option_and_then (function_place names.now) (option_and_then (form_over clause.now) (first_word apps.now)) }
{
    if apps.len() == 0 {
        None
    } else {
        place_over(names, clause, &apps[0].func)
    }
}

/// The place of the function with this word, where the clause has monotone shape over it.
fn place_over(names: &Names, clause: &FlatClause, word: &Text) -> Option<u32>
    ensures { result ≡ option_and_then (function_place names.now) (form_over clause.now word.now) }
{
    match form_of(
        word,
        clause.vars.as_slice(),
        clause.guard.as_slice(),
        clause.head.as_slice(),
    ) {
        None => None,
        Some(_) => names.function(word.as_slice()),
    }
}
