//! The one line that says why a text is refused.

ghost use Rattle.std.specs.Prelude.{◌≡◌, ◌++◌, IfOk};
ghost use Rattle.std.specs.Fmt.{decimal};
ghost use Rattle.hp_cli.specs.Refusals.{limit_text, not_built_text, sort_text, spelling_text};

use hp_grammar::ReadErr;
use hp_num::Text;
use hp_sorts::SortErr;
use hp_text::put_whole;
use hp_tree::{Limit, Which};
use std::alloc::{AllocError, Global};

/// A number between two texts.
fn numbered(alloc: Global, before: &[u8], number: u64, after: &[u8]) -> Result<Text, AllocError>
    ensures { IfOk result (λ text. text ≡ before.now ++ decimal number ++ after.now) }
{
    let mut out = Text::from_slice(alloc, before)?;
    put_whole(&mut out, i128::from(number))?;
    out.extend_from_slice(after)?;
    Ok(out)
}

/// The line of what is wrongly spelled: where, in bytes from 0. Want of memory has no line.
pub fn spelling(alloc: Global, fault: ReadErr) -> Result<Text, AllocError>
    ensures { IfOk result (λ text. text ≡ spelling_text fault) }
{
    match fault {
        ReadErr::Syntax { offset } => numbered(alloc, b"syntax ", offset as u64, b"\n"),
        ReadErr::LongNumeral { offset } => {
            numbered(alloc, b"long-numeral ", offset as u64, b"\n")
        }
        ReadErr::Deep { offset } => numbered(alloc, b"deep ", offset as u64, b"\n"),
        ReadErr::Memory => Err(AllocError),
    }
}

/// The line of an item that breaks a rule on names and sorts. Want of memory has no line.
pub fn sort(alloc: Global, fault: SortErr) -> Result<Text, AllocError>
    ensures { IfOk result (λ text. text ≡ sort_text fault) }
{
    match fault {
        SortErr::Twice { item } => numbered(alloc, b"sort ", u64::from(item), b" twice\n"),
        SortErr::Level { item } => numbered(alloc, b"sort ", u64::from(item), b" level\n"),
        SortErr::Unknown { item } => numbered(alloc, b"sort ", u64::from(item), b" unknown\n"),
        SortErr::Arity { item } => numbered(alloc, b"sort ", u64::from(item), b" arity\n"),
        SortErr::Mismatch { item } => numbered(alloc, b"sort ", u64::from(item), b" mismatch\n"),
        SortErr::Memory => Err(AllocError),
    }
}

/// The line of a limit that is passed.
pub fn limit(alloc: Global, limit: Limit) -> Result<Text, AllocError>
    ensures { IfOk result (λ text. text ≡ limit_text limit) }
{
    let most = limit.most;
    match limit.which {
        Which::Input => numbered(alloc, b"limit input ", most, b"\n"),
        Which::Bytes => numbered(alloc, b"limit bytes ", most, b"\n"),
        Which::Clauses => numbered(alloc, b"limit clauses ", most, b"\n"),
        Which::Variables => numbered(alloc, b"limit variables ", most, b"\n"),
        Which::Arguments => numbered(alloc, b"limit arguments ", most, b"\n"),
        Which::Names => numbered(alloc, b"limit names ", most, b"\n"),
        Which::Lines => numbered(alloc, b"limit lines ", most, b"\n"),
        Which::Coefficient => {
            let item = u64::from(limit.item);
            numbered(alloc, b"limit coefficient item ", item, b"\n")
        }
    }
}

/// The line of a form that isn't decided so far.
pub fn not_built(alloc: Global) -> Result<Text, AllocError>
    ensures { IfOk result (λ text. text ≡ not_built_text) }
{
    Text::from_slice(alloc, b"not built\n")
}
