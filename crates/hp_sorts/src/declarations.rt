//! The declarations of a problem in their order: what they declare, unless one of them breaks a rule.

ghost use Rattle.std.specs.Prelude.{◌≡◌, ◌<◌, ◌^◌, length, IfOk};
ghost use Rattle.hp_sorts.specs.Symbols.{declare, no_symbols, symbols};
ghost use Rattle.hp_sorts.specs.Faults.{Answers, is_level, decl_fault, decls_fault};

use crate::fault::SortErr;
use crate::tables::{Signature, Tables};
use hp_num::{List, Text};
use hp_tree::{Decl, Sort};
use std::alloc::{AllocError, Global};

/// What the declarations declare, or the first fault among them.
#[tactic(auto, using(crate::proofs::Walking::decls_fault_rest, crate::proofs::Walking::joined_rest, crate::proofs::Walking::joined_nil))]
pub fn declare_all(alloc: Global, decls: &[Decl]) -> Result<Tables, SortErr>
    requires { length decls.now < 2 ^ 28 }
    ensures { Answers (decls_fault no_symbols 0 decls.now) (λ tables. tables ≡ symbols decls.now) result }
{
    let mut tables = Tables::new(alloc);
    let mut item: u32 = 0;
    for decl in decls {
        item += 1;
        declare(alloc, &mut tables, item, decl)?;
    }
    Ok(tables)
}

/// Adds what the item declares, unless it breaks a rule.
fn declare(alloc: Global, tables: &mut Tables, item: u32, decl: &Decl) -> Result<(), SortErr>
    ensures { Answers (decl_fault tables.old item decl.now) (λ _. tables.new ≡ declare tables.old decl.now) result }
{
    match decl {
        Decl::Const { name, sort } => {
            if tables.declares(name) {
                return Err(SortErr::Twice { item });
            }
            tables.constants.insert(alloc, name, *sort)?;
            Ok(())
        }
        Decl::Fun {
            name,
            args,
            result,
            level,
        } => {
            if tables.declares(name) {
                return Err(SortErr::Twice { item });
            }
            if !is_level(*level) {
                return Err(SortErr::Level { item });
            }
            tables.functions.insert(alloc, name.as_slice())?;
            let signature = Signature {
                args: copy(alloc, args.as_slice())?,
                result: *result,
                level: *level,
            };
            tables.signatures.push(signature)?;
            Ok(())
        }
    }
}

/// Whether a function may have this level.
fn is_level(level: u64) -> bool
    ensures { result ≡ is_level level }
{
    0 < level && level < 17
}

/// Equal sorts in their order.
fn copy(alloc: Global, sorts: &[Sort]) -> Result<List<Sort>, AllocError>
    ensures { IfOk result (λ all. all ≡ sorts.now) }
{
    let mut all = List::new(alloc);
    for sort in sorts {
        all.push(*sort)?;
    }
    Ok(all)
}
