//! The rules, clause by clause.

ghost use Rattle.std.specs.Prelude.{◌≡◌, ◌<◌, ◌^◌, [], ◌∷◌, length, IfOk};
ghost use Rattle.std.specs.List.{All, list_all};
ghost use Rattle.hp_flatten.specs.Applications.{atoms_applications, clause_applications};
ghost use Rattle.hp_flatten.specs.Laws.{HasPlainConstants};
ghost use Rattle.hp_defs.specs.Names.{NameList};
ghost use Rattle.hp_norm.specs.Flat.{IsFlat};
ghost use Rattle.hp_rules.specs.Answers.{RuledAs, RuledTo};
ghost use Rattle.hp_rules.specs.Rules.{broken, is_case_atom, is_empty, read_applications, read_at, read_case, read_clause, placed, read_guard, read_head, read_nums, read_owned, read_rows, rule_words, with_case, with_monotone};

use crate::arrays::{are_array_applications, read_level};
use crate::branches::with_case;
use crate::rows::{rows_of, rule_words};
use crate::ruled::{CaseClause, RuleErr, Ruled};
use crate::shape::{
    application_place, are_num_functions, is_any_taken, monotone_place, monotone_places,
};
use hp_cases::{Bound, head_bound};
use hp_defs::Names;
use hp_flatten::{Application, are_arguments, clause_applications, flatten, is_num};
use hp_index_set::is_convex;
use hp_lit::{NumLit, Refusal, coefficient};
use hp_names::NameIndex;
use hp_norm::{FlatClause, clause_sort};
use hp_num::List;
use hp_pairs::Outside;
use hp_tree::Atom;
use std::alloc::{AllocError, Global};

/// What flat clauses are, in the order of the text: monotone clauses, those of cases, and those over arrays. The first clause
/// that breaks a rule comes with the first rule that it breaks:
///
/// 1. An application is left in it.
/// 2. Arrays in it are on one level.
/// 3. Its functions are all of num to num, or all arrays, which are of idx to num with one argument.
/// 4. A function with a clause of monotone shape is in no second one.
///
/// A clause over functions of num to num that has another shape is one of a case.
///
/// 5. It has one application, whose arguments are variables or have none. Its variables are num, and are those that are
///    arguments.
/// 6. Its guard is of num atoms without applications, by any relation but `!=`.
/// 7. Its head is one atom by `<=`, `>=` or `=` with the application alone on one side. Clauses of one function whose guards have
///    equal literals, once they are said of the words of arguments, are a case, which has at most one lower and one upper bound,
///    `=` being both. Where two clauses give these, upper minus lower can be computed with numbers up to 2^127 - 1. The later
///    clause breaks it.
///
/// A clause over arrays:
///
/// 10. Its variables are indexes, and atoms between indexes in which one occurs stand in the guard and bound it
///     (`hp_index_set::has_index_guards`).
/// 11. Its applications are at variables, and no atom is between pointers (`hp_index_set::reads_at_variables`).
///
/// All functions of num to num in a clause count as its own: lower ones are not told from them so far. An application of more
/// than 255 arguments, which no problem has, counts as want of memory.
pub fn rules(alloc: Global, names: &Names, clauses: &[FlatClause]) -> Result<Ruled, RuleErr>
    requires constants { HasPlainConstants names.now }
    requires flat { All (IsFlat names.now) clauses.now }
    ensures { RuledAs names.now clauses.now result }
{
    let words = rule_words(alloc, names)?;
    let monotone = monotone_places(alloc, names, clauses)?;
    let mut ruled = Ruled {
        owned: List::new(alloc),
        branches: List::new(alloc),
        clauses: List::new(alloc),
        arrays: List::new(alloc),
    };
    for clause in clauses {
        read_clause(
            alloc,
            names,
            &words,
            monotone.as_slice(),
            &mut ruled,
            clause,
        )?;
    }
    Ok(ruled)
}

/// One clause more.
fn read_clause(
    alloc: Global,
    names: &Names,
    words: &NameIndex,
    monotone: &[u32],
    ruled: &mut Ruled,
    clause: &FlatClause,
) -> Result<(), RuleErr>
    requires words { words.now ≡ rule_words names.now }
    requires few { length words.now < 2 ^ 28 }
    requires flat { IsFlat names.now clause.now }
    ensures { RuledTo (read_clause names.now monotone.now ruled.old clause.now) ruled.new result }
{
    let apps = clause_applications(alloc, clause)?;
    read_applications(
        alloc,
        names,
        words,
        monotone,
        ruled,
        clause,
        apps.as_slice(),
    )
}

/// Rules 1 and 3, of a clause with these applications.
fn read_applications(
    alloc: Global,
    names: &Names,
    words: &NameIndex,
    monotone: &[u32],
    ruled: &mut Ruled,
    clause: &FlatClause,
    apps: &[Application],
) -> Result<(), RuleErr>
    requires words { words.now ≡ rule_words names.now }
    requires few { length words.now < 2 ^ 28 }
    requires apps { apps.now ≡ clause_applications clause.now }
    requires flat { IsFlat names.now clause.now }
    ensures { RuledTo (read_applications names.now monotone.now ruled.old clause.now apps.now) ruled.new result }
{
    if apps.len() == 0 {
        Err(broken(alloc, clause.clause, 1))
    } else if are_num_functions(names, apps) {
        read_nums(alloc, names, words, monotone, ruled, clause, apps)
    } else if are_array_applications(names, apps) {
        read_level(alloc, names, ruled, clause, apps, &apps[0])
    } else {
        Err(broken(alloc, clause.clause, 3))
    }
}

/// Rule 4, of a clause over functions of num to num.
fn read_nums(
    alloc: Global,
    names: &Names,
    words: &NameIndex,
    monotone: &[u32],
    ruled: &mut Ruled,
    clause: &FlatClause,
    apps: &[Application],
) -> Result<(), RuleErr>
    requires words { words.now ≡ rule_words names.now }
    requires few { length words.now < 2 ^ 28 }
    requires apps { apps.now ≡ clause_applications clause.now }
    ensures { RuledTo (read_nums names.now monotone.now ruled.old clause.now apps.now) ruled.new result }
{
    if is_any_taken(names, monotone, ruled.owned.as_slice(), apps) {
        return Err(broken(alloc, clause.clause, 4));
    }
    let func = monotone_place(names, clause, apps);
    read_owned(alloc, names, words, ruled, clause, apps, func)
}

/// A clause of monotone shape, or one of a case.
fn read_owned(
    alloc: Global,
    names: &Names,
    words: &NameIndex,
    ruled: &mut Ruled,
    clause: &FlatClause,
    apps: &[Application],
    func: Option<u32>,
) -> Result<(), RuleErr>
    requires words { words.now ≡ rule_words names.now }
    requires few { length words.now < 2 ^ 28 }
    ensures { RuledTo (read_owned names.now ruled.old clause.now apps.now func) ruled.new result }
{
    match func {
        Some(func) => {
            ruled.owned = with_first(alloc, func, ruled.owned.as_slice())?;
            Ok(())
        }
        None => read_case(alloc, names, words, ruled, clause, apps),
    }
}

/// Functions with one more before them.
fn with_first(alloc: Global, func: u32, funcs: &[u32]) -> Result<List<u32>, AllocError>
    ensures { IfOk result (λ all. all ≡ func ∷ funcs.now) }
{
    let mut all = List::new(alloc);
    all.push(func)?;
    for other in funcs {
        all.push(*other)?;
    }
    Ok(all)
}

/// Rule 5: one application.
fn read_case(
    alloc: Global,
    names: &Names,
    words: &NameIndex,
    ruled: &mut Ruled,
    clause: &FlatClause,
    apps: &[Application],
) -> Result<(), RuleErr>
    requires words { words.now ≡ rule_words names.now }
    requires few { length words.now < 2 ^ 28 }
    ensures { RuledTo (read_case names.now ruled.old clause.now apps.now) ruled.new result }
{
    if apps.len() == 1 {
        let app = &apps[0];
        read_at(
            alloc,
            names,
            words,
            ruled,
            app,
            clause,
            application_place(names, app),
        )
    } else {
        Err(broken(alloc, clause.clause, 5))
    }
}

/// Rule 5: its arguments.
fn read_at(
    alloc: Global,
    names: &Names,
    words: &NameIndex,
    ruled: &mut Ruled,
    app: &Application,
    clause: &FlatClause,
    func: Option<u32>,
) -> Result<(), RuleErr>
    requires words { words.now ≡ rule_words names.now }
    requires few { length words.now < 2 ^ 28 }
    ensures { RuledTo (read_at names.now ruled.old app.now clause.now func) ruled.new result }
{
    match func {
        None => Err(broken(alloc, clause.clause, 3)),
        Some(func) => {
            if are_arguments(clause.vars.as_slice(), app.args.as_slice()) {
                read_guard(alloc, names, words, ruled, func, app, clause)
            } else {
                Err(broken(alloc, clause.clause, 5))
            }
        }
    }
}

/// Rule 6, of a clause with this application.
fn read_guard(
    alloc: Global,
    names: &Names,
    words: &NameIndex,
    ruled: &mut Ruled,
    func: u32,
    app: &Application,
    clause: &FlatClause,
) -> Result<(), RuleErr>
    requires words { words.now ≡ rule_words names.now }
    requires few { length words.now < 2 ^ 28 }
    ensures { RuledTo (read_guard names.now ruled.old func app.now clause.now) ruled.new result }
{
    let are_all = are_case_atoms(alloc, names, clause, clause.guard.as_slice())?;
    if !are_all {
        return Err(broken(alloc, clause.clause, 6));
    }
    if app.args.len() > 255 {
        return Err(RuleErr::Memory);
    }
    let flat = flatten(alloc, clause, app)?;
    let bound = head_bound(alloc, &app.func, flat.head.as_slice())?;
    read_head(alloc, words, ruled, func, app.args.len() as u8, flat, bound)
}

/// Whether atoms are num ones without applications, by any relation but `!=`.
fn are_case_atoms(
    alloc: Global,
    names: &Names,
    clause: &FlatClause,
    atoms: &[Atom],
) -> Result<bool, AllocError>
    ensures { IfOk result (λ found. found ≡ list_all (is_case_atom names.now clause.now) atoms.now) }
{
    for atom in atoms {
        let is_one = is_case_atom(alloc, names, clause, atom)?;
        if !is_one {
            return Ok(false);
        }
    }
    Ok(true)
}

/// Whether an atom of a clause is a num one without applications, by any relation but `!=`.
fn is_case_atom(
    alloc: Global,
    names: &Names,
    clause: &FlatClause,
    atom: &Atom,
) -> Result<bool, AllocError>
    ensures { IfOk result (λ found. found ≡ is_case_atom names.now clause.now atom.now) }
{
    let without = is_without(alloc, atom)?;
    Ok(is_num(clause_sort(names, clause.vars.as_slice(), atom)) && is_convex(atom.cmp) && without)
}

/// Whether an atom has no applications.
fn is_without(alloc: Global, atom: &Atom) -> Result<bool, AllocError>
    ensures { IfOk result (λ without. without ≡ is_empty (atoms_applications (atom.now ∷ []))) }
{
    let mut guard = List::new(alloc);
    guard.push(atom.copy(alloc)?)?;
    let alone = FlatClause {
        clause: 0,
        item: 0,
        vars: List::new(alloc),
        guard,
        head: List::new(alloc),
    };
    let apps = clause_applications(alloc, &alone)?;
    Ok(apps.len() == 0)
}

/// Rule 7: the head bounds the function. The clause is over the words of arguments.
fn read_head(
    alloc: Global,
    words: &NameIndex,
    ruled: &mut Ruled,
    func: u32,
    args: u8,
    clause: FlatClause,
    bound: Option<Bound>,
) -> Result<(), RuleErr>
    requires few { length words.now < 2 ^ 28 }
    ensures { (names : NameList) → words.now ≡ rule_words names → RuledTo (read_head names ruled.old func args clause bound) ruled.new result }
{
    match bound {
        None => Err(broken(alloc, clause.clause, 7)),
        Some(bound) => {
            let item = clause.item;
            match rows_of(alloc, words, clause.guard.as_slice()) {
                Ok(rows) => place(alloc, words, ruled, func, args, clause, bound, rows),
                Err(Refusal::Wide) => Err(RuleErr::Limit(coefficient(item))),
                Err(Refusal::Memory) => Err(RuleErr::Memory),
            }
        }
    }
}

/// Rule 7: the case of a clause with these literals has not two bounds of one kind, and upper minus lower can be formed.
fn place(
    alloc: Global,
    words: &NameIndex,
    ruled: &mut Ruled,
    func: u32,
    args: u8,
    clause: FlatClause,
    bound: Bound,
    rows: List<NumLit>,
) -> Result<(), RuleErr>
    requires few { length words.now < 2 ^ 28 }
    ensures { RuledTo (placed ruled.old func clause (with_case words.now func args clause rows bound ruled.old.branches)) ruled.new result }
{
    let number = clause.clause;
    let done = with_case(
        alloc,
        words,
        func,
        args,
        &clause,
        rows,
        bound,
        &mut ruled.branches,
    )?;
    if !done {
        return Err(broken(alloc, number, 7));
    }
    ruled.owned = with_first(alloc, func, ruled.owned.as_slice())?;
    ruled.clauses.push(CaseClause { func, clause })?;
    Ok(())
}

/// That a clause breaks a rule alone.
pub fn broken(alloc: Global, clause: u32, rule: u8) -> RuleErr
    ensures { result ≡ broken clause rule }
{
    RuleErr::Outside(Outside {
        clause,
        rule,
        other: 0,
        at: List::new(alloc),
    })
}
