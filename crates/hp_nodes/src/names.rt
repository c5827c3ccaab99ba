//! Lists of names: what rows mention, each name once, and the node of a name.
ghost use Rattle.std.specs.Prelude.{◌≡◌, ◌≤◌, ◌++◌, IfOk, OnOk, length};
ghost use Rattle.std.specs.List.Sorted.{IsStrictlyIncreasing};
ghost use Rattle.hp_nodes.specs.Nodes.{AreNames, IsNamed, name_at, number_of};

use hp_lit::Name;
use std::alloc::AllocError;

/// Adds the number of the name at the end, if there is one. `Err` says that memory was wanting.
pub fn mention(mentions: &mut Vec<u32>, name: Option<Name>) -> Result<(), AllocError>
    ensures { OnOk result (mentions.new.items ≡ mentions.old.items ++ number_of name) }
{
    if let Some(name) = name {
        mentions.push(name.0)?;
    }
    Ok(())
}

/// The names that are mentioned, each once, in rising order. `Err` says that memory was wanting.
pub fn distinct(mentions: Vec<u32>) -> Result<Vec<u32>, AllocError>
    ensures { IfOk result (λ names. AreNames mentions.items names.items) }
{
    let mut names = mentions;
    names.sort()?;
    names.dedup();
    Ok(names)
}

/// The node of a name, or of none: 0 for no name, and one more than the place of a name in `names`, which are in rising
/// order and have it.
pub fn node_of(names: &[u32], name: Option<Name>) -> usize
    requires rising { IsStrictlyIncreasing names.now }
    requires named { IsNamed names.now name }
    ensures within { result ≤ length names.now }
    ensures named { name_at names.now result ≡ name }
{
    match name {
        None => 0,
        Some(name) => match names.binary_search(&name.0) {
            Ok(at) => at + 1,
            Err(_) => 0,
        },
    }
}
