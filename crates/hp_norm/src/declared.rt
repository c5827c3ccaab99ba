//! The names that a problem declares.

ghost use Rattle.std.specs.Prelude.{◌≡◌, ◌+◌, ◌<◌, ◌≤◌, ◌^◌, [], ◌∷◌, false, length, map, IfOk, OnOk};
ghost use Rattle.std.specs.List.{All};
ghost use Rattle.hp_tree.specs.Limits.{most_names};
ghost use Rattle.hp_names.specs.Names.{AreDistinct, is_among};
ghost use Rattle.hp_terms.specs.Words.{IsPlainWord, declared_word};
ghost use Rattle.hp_defs.specs.Names.{constant_words, function_words};
ghost use Rattle.hp_norm.specs.Answers.{with_declared};
ghost use Rattle.hp_norm.specs.Lines.{constants_of, declared_names};

use hp_defs::{Names, Signature};
use hp_num::List;
use hp_tree::Decl;
use std::alloc::{AllocError, Global};

/// How many of the declarations are constants.
pub fn count_constants(decls: &[Decl]) -> usize
    ensures { result ≡ length (constants_of decls.now) }
{
    let mut count = 0;
    for decl in decls {
        match decl {
            Decl::Const { .. } => count += 1,
            Decl::Fun { .. } => {}
        }
    }
    count
}

/// The declared names: constants and functions, each in the order of declarations, and functions with the numbers of
/// their items, counted from 1.
pub fn declared_names(alloc: Global, decls: &[Decl]) -> Result<Names, AllocError>
    requires few { length (constants_of decls.now) ≤ most_names }
    requires items { length decls.now < 2 ^ 28 }
    requires distinct { AreDistinct (map declared_word decls.now) }
    requires plain { All (λ d. IsPlainWord (declared_word d)) decls.now }
    ensures { IfOk result (λ names. names ≡ declared_names decls.now) }
{
    let mut names = Names::new(alloc);
    for (at, decl) in decls.iter().enumerate() {
        add_declared(alloc, &mut names, at as u32 + 1, decl)?;
    }
    Ok(names)
}

/// Adds what the declaration with this item declares.
fn add_declared(alloc: Global, names: &mut Names, item: u32, decl: &Decl) -> Result<(), AllocError>
    requires few { length names.old.constants + length (constants_of (decl.now ∷ [])) ≤ most_names }
    requires few_functions { length names.old.signatures + 1 < 2 ^ 32 }
    requires before { names.old.definitions ≡ [] }
    requires new_constant { is_among (declared_word decl.now) (constant_words names.old) ≡ false }
    requires new_function { is_among (declared_word decl.now) (function_words names.old) ≡ false }
    requires plain { IsPlainWord (declared_word decl.now) }
    ensures { OnOk result (names.new ≡ with_declared item decl.now names.old) }
{
    match decl {
        Decl::Const { name, sort } => names.add_constant(name.copy(alloc)?, *sort),
        Decl::Fun {
            name,
            args,
            result,
            level,
        } => names.add_signature(Signature {
            name: name.copy(alloc)?,
            args: List::from_slice(alloc, args.as_slice())?,
            result: *result,
            level: *level,
            item,
        }),
    }
}
