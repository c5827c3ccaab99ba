//! The declared functions, as far as the form of clauses goes: which take or give pointers, and their levels.

ghost use Rattle.std.specs.Prelude.{◌≡◌, [], option_and_then, position, slice_get, IfOk, OnOk};
ghost use Rattle.std.specs.List.{list_any};
ghost use Rattle.std.specs.Str.{bytes_eq};
ghost use Rattle.hp_waiting.specs.Waiting.{also_function, function_of, functions_from, is_ptr, with_function, words_from};

use hp_names::NameIndex;
use hp_num::List;
use hp_tree::{Decl, Sort};
use std::alloc::{AllocError, Global};

/// Whether a function takes or gives a pointer, and its level.
#[derive(Clone, Copy, Debug, Drop)]
pub struct Function {
    pub pointer: bool,
    pub level: u64,
}

/// The declared functions in their order, the first declaration of each word.
#[derive(Drop)]
pub struct Table {
    /// The words of the functions.
    pub words: NameIndex,
    /// The functions, each at the place of its word.
    pub functions: List<Function>,
}

/// The functions that are declared. `Err` says that memory was wanting.
pub fn declared_functions(alloc: Global, decls: &[Decl]) -> Result<Table, AllocError>
    ensures words { IfOk result (λ table. table.words ≡ words_from [] decls.now) }
    ensures functions { IfOk result (λ table. table.functions ≡ functions_from [] [] decls.now) }
{
    let mut words = NameIndex::new(alloc);
    let mut functions = List::new(alloc);
    for decl in decls {
        add_function(alloc, decl, &mut words, &mut functions)?;
    }
    Ok(Table { words, functions })
}

/// Adds the function of a declaration, unless its word is there already.
fn add_function(
    alloc: Global,
    decl: &Decl,
    words: &mut NameIndex,
    functions: &mut List<Function>,
) -> Result<(), AllocError>
    ensures words { OnOk result (words.new ≡ with_function words.old decl.now) }
    ensures functions { OnOk result (functions.new ≡ also_function words.old functions.old decl.now) }
{
    match decl {
        Decl::Const { .. } => Ok(()),
        Decl::Fun {
            name,
            args,
            result,
            level,
        } => {
            if words.insert(alloc, name.as_slice())? {
                functions.push(function_of(args.as_slice(), *result, *level))?;
            }
            Ok(())
        }
    }
}

/// A function with these sorts of its arguments, this sort of its value, and this level.
fn function_of(args: &[Sort], value: Sort, level: u64) -> Function
    ensures { result ≡ function_of args.now value level }
{
    Function {
        pointer: has_pointer(args) || is_ptr(value),
        level,
    }
}

/// Whether one of these sorts is ptr.
fn has_pointer(sorts: &[Sort]) -> bool
    ensures { result ≡ list_any is_ptr sorts.now }
{
    sorts.iter().any(|sort| is_ptr(*sort))
}

/// Whether a sort is ptr.
pub fn is_ptr(sort: Sort) -> bool
    ensures { result ≡ is_ptr sort }
{
    match sort {
        Sort::Ptr => true,
        Sort::Num | Sort::Idx => false,
    }
}

/// The function of a word, or `None` where none is declared.
pub fn function_named(table: &Table, word: &[u8]) -> Option<Function>
    ensures { result ≡ option_and_then (λ at. slice_get table.now.functions at) (position (bytes_eq word.now) table.now.words) }
{
    match table.words.position(word) {
        Some(at) => function_at(table.functions.as_slice(), at),
        None => None,
    }
}

/// The function at a place, counted from 0, or `None` behind the last.
fn function_at(functions: &[Function], at: usize) -> Option<Function>
    ensures { result ≡ slice_get functions.now at }
{
    if at < functions.len() {
        Some(functions[at])
    } else {
        None
    }
}
