//! Refutations and their text.
//! What the text is, is said on the data alone, in `specs/Refutation.antt`.

ghost use Rattle.std.specs.Prelude.{◌≡◌, ◌++◌, codes, IfOk, OnOk};
ghost use Rattle.std.specs.List.{flat_map};
ghost use Rattle.hp_cert.specs.Refutation.{listed_def, listed_line, listed_node, refutation_text};

use crate::nodes::put_node;
use hp_leaf::Node;
use hp_num::{List, Text};
use hp_text::{put_text, put_whole};
use std::alloc::{AllocError, Global};

/// A definition or a line with its number, counted from 1, and its text: what stands behind `def _N = ` or behind
/// `line N `, without a line feed.
#[derive(Drop)]
pub struct Entry {
    pub number: u32,
    pub text: Text,
}

/// Definitions and lines of a ground problem, and a tree that splits these lines, in preorder.
#[derive(Drop)]
pub struct Refutation {
    pub defs: List<Entry>,
    pub lines: List<Entry>,
    pub tree: List<Node>,
}

/// The text of a refutation: the line `unsatisfiable`, and then its definitions, lines and nodes. Each line has a line
/// feed behind it. An `Err` comes where memory is short.
pub fn write(alloc: Global, r: &Refutation) -> Result<Text, AllocError>
    ensures { IfOk result (λ text. text ≡ codes "unsatisfiable\n" ++ refutation_text r.now) }
{
    let mut out = Text::new(alloc);
    put_text(&mut out, b"unsatisfiable\n")?;
    put_refutation(&mut out, r)?;
    Ok(out)
}

/// The text of definitions, lines and tree, with a line for each definition, line and node in their order, and `open`
/// for a place that wasn't looked at. Each line has a line feed behind it. An `Err` comes where memory is short.
pub fn body(alloc: Global, r: &Refutation) -> Result<Text, AllocError>
    ensures { IfOk result (λ text. text ≡ refutation_text r.now) }
{
    let mut out = Text::new(alloc);
    put_refutation(&mut out, r)?;
    Ok(out)
}

/// Puts definitions, lines and nodes at the end of `out`, of which a part may be there where memory is short.
fn put_refutation(out: &mut Text, r: &Refutation) -> Result<(), AllocError>
    ensures { OnOk result (out.new ≡ out.old ++ refutation_text r.now) }
{
    put_defs(out, r.defs.as_slice())?;
    put_lines(out, r.lines.as_slice())?;
    put_nodes(out, r.tree.as_slice())
}

/// Puts definitions, each on a line.
fn put_defs(out: &mut Text, defs: &[Entry]) -> Result<(), AllocError>
    ensures { OnOk result (out.new ≡ out.old ++ flat_map listed_def defs.now) }
{
    for def in defs {
        put_text(out, b"def _")?;
        put_whole(out, i128::from(def.number))?;
        put_text(out, b" = ")?;
        put_text(out, def.text.as_slice())?;
        put_text(out, b"\n")?;
    }
    Ok(())
}

/// Puts lines, each on a line.
fn put_lines(out: &mut Text, lines: &[Entry]) -> Result<(), AllocError>
    ensures { OnOk result (out.new ≡ out.old ++ flat_map listed_line lines.now) }
{
    for line in lines {
        put_text(out, b"line ")?;
        put_whole(out, i128::from(line.number))?;
        put_text(out, b" ")?;
        put_text(out, line.text.as_slice())?;
        put_text(out, b"\n")?;
    }
    Ok(())
}

/// Puts nodes, each on a line.
fn put_nodes(out: &mut Text, tree: &[Node]) -> Result<(), AllocError>
    ensures { OnOk result (out.new ≡ out.old ++ flat_map listed_node tree.now) }
{
    for node in tree {
        put_node(out, node)?;
        put_text(out, b"\n")?;
    }
    Ok(())
}
