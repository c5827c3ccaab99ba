//! Clauses over arrays.

ghost use Rattle.std.specs.Prelude.{◌≡◌, ◌++◌, ◌∷◌, [], Some, slice_get, IfOk, IfSome};
ghost use Rattle.std.specs.List.{list_all};
ghost use Rattle.hp_norm.specs.Flat.{IsFlat};
ghost use Rattle.hp_rules.specs.Answers.{RuledTo};
ghost use Rattle.hp_rules.specs.Rules.{application_places, array_clause, has_level, is_array_application, is_array_signature, is_one_index, read_arrays, read_level, signature_of, with_array};

use crate::copies::copy_clause;
use crate::reading::broken;
use crate::ruled::{ArrayClause, RuleErr, Ruled};
use crate::shape::application_place;
use hp_defs::{Names, Signature};
use hp_flatten::{Application, is_num};
use hp_index_set::{has_index_guards, reads_at_variables};
use hp_norm::FlatClause;
use hp_num::List;
use hp_tree::Sort;
use std::alloc::{AllocError, Global};

/// Whether the functions of applications are of idx to num, with one argument.
pub fn are_array_applications(names: &Names, apps: &[Application]) -> bool
    ensures { result ≡ list_all (is_array_application names.now) apps.now }
{
    apps.iter().all(|app| is_array_application(names, app))
}

/// The same of one application.
fn is_array_application(names: &Names, app: &Application) -> bool
    ensures { result ≡ is_array_application names.now app.now }
{
    match application_place(names, app) {
        None => false,
        Some(func) => is_array_signature(names.signature(func)),
    }
}

/// Whether a function is of idx to num, with one argument.
fn is_array_signature(signature: &Signature) -> bool
    ensures { result ≡ is_array_signature (Some signature.now) }
{
    is_one_index(signature.args.as_slice()) && is_num(signature.result)
}

/// Whether sorts are one, idx.
fn is_one_index(sorts: &[Sort]) -> bool
    ensures { result ≡ is_one_index sorts.now }
{
    sorts.len() == 1 && sorts[0] == Sort::Idx
}

/// A clause over arrays with these applications, of which this is the first one.
pub fn read_level(
    alloc: Global,
    names: &Names,
    ruled: &mut Ruled,
    clause: &FlatClause,
    apps: &[Application],
    first: &Application,
) -> Result<(), RuleErr>
    requires flat { IsFlat names.now clause.now }
    ensures { RuledTo (read_level names.now ruled.old clause.now apps.now (signature_of names.now first.now)) ruled.new result }
{
    match application_place(names, first) {
        None => Err(broken(alloc, clause.clause, 3)),
        Some(func) => {
            let level = names.signature(func).level;
            read_arrays(alloc, names, ruled, clause, apps, level)
        }
    }
}

/// Rules 2, 10 and 11: the arrays are on this level, guards bound indexes, and arrays are read at variables.
fn read_arrays(
    alloc: Global,
    names: &Names,
    ruled: &mut Ruled,
    clause: &FlatClause,
    apps: &[Application],
    level: u64,
) -> Result<(), RuleErr>
    requires flat { IsFlat names.now clause.now }
    ensures { RuledTo (read_arrays names.now ruled.old clause.now apps.now level) ruled.new result }
{
    if !are_on_level(names, apps, level) {
        return Err(broken(alloc, clause.clause, 2));
    }
    if !has_index_guards(alloc, names, clause)? {
        return Err(broken(alloc, clause.clause, 10));
    }
    if !reads_at_variables(alloc, names, clause)? {
        return Err(broken(alloc, clause.clause, 11));
    }
    let read = ArrayClause {
        level,
        funcs: application_places(alloc, names, apps)?,
        clause: copy_clause(alloc, clause)?,
    };
    ruled.arrays.push(read)?;
    Ok(())
}

/// Whether the functions of applications are on this level.
fn are_on_level(names: &Names, apps: &[Application], level: u64) -> bool
    ensures { result ≡ list_all (λ a. has_level level (signature_of names.now a)) apps.now }
{
    apps.iter().all(|app| is_on_level(names, app, level))
}

/// The same of one application.
fn is_on_level(names: &Names, app: &Application, level: u64) -> bool
    ensures { result ≡ has_level level (signature_of names.now app.now) }
{
    match application_place(names, app) {
        None => false,
        Some(func) => names.signature(func).level == level,
    }
}

/// The functions of applications, by their places in the order of declarations, counted from 0.
fn application_places(
    alloc: Global,
    names: &Names,
    apps: &[Application],
) -> Result<List<u32>, AllocError>
    ensures { IfOk result (λ places. places ≡ application_places names.now apps.now) }
{
    let mut places = List::new(alloc);
    for app in apps {
        match application_place(names, app) {
            None => {}
            Some(func) => places.push(func)?,
        }
    }
    Ok(places)
}
