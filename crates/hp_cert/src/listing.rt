//! The refutation of a ground problem by a tree: all definitions, the lines that the tree splits, and the tree.
//!
//! The lines are found by one pass over the tree, which marks them, and one pass over the marks.

ghost use Rattle.std.specs.Prelude.{◌≡◌, ◌≤◌, false, length, replicate, IfOk};
ghost use Rattle.std.specs.List.{All};
ghost use Rattle.hp_tree.specs.Limits.{most_names};
ghost use Rattle.hp_leaf.specs.Tree.{IsClosed};
ghost use Rattle.hp_cert.specs.Entries.{all_defs, marked_lines, with_mark, with_marks, AreSplitLines, SplitsLine};
ghost use Rattle.hp_cert.specs.Named.{AreNamed};
ghost use Rattle.hp_cert.specs.Refutes.{Refutes};
ghost use Rattle.hp_cert.specs.Spelled.{AreOnOneLine, HasNumber, IsReading, IsSpelled};

use crate::ground::{body_text, line_text};
use crate::refutation::{Entry, Refutation};
use hp_defs::{Ground, Names};
use hp_leaf::Node;
use hp_num::List;
use std::alloc::{AllocError, Global};

/// What a tree of splits, each of a line of the problem, lists of it: all definitions, the lines that the tree splits
/// and no others in rising order, each with its text, and the tree. Where the tree is closed, this refutes the problem.
/// Where its leaves are valid, and no name has a line feed, all of this is spelled, so that its text can be read back. An `Err` comes where memory is
/// short, or the tree has more than 4,294,967,295 nodes.
pub fn entries(alloc: Global, g: &Ground, tree: List<Node>) -> Result<Refutation, AllocError>
    requires named { AreNamed g.now.names }
    requires splits { All (SplitsLine g.now) tree }
    ensures defs { IfOk result (λ r. r.defs ≡ all_defs g.now.names) }
    ensures lines { IfOk result (λ r. AreSplitLines g.now tree r.lines) }
    ensures tree { IfOk result (λ r. r.tree ≡ tree) }
    ensures refutes { IsClosed g.now.lines tree → IfOk result (Refutes g.now) }
    ensures spelled { AreOnOneLine g.now.names → IsReading g.now.lines tree → IfOk result IsSpelled }
{
    if tree.len() > u32::MAX as usize {
        return Err(AllocError);
    }
    let defs = defined(alloc, &g.names)?;
    let marks = marked(alloc, g, tree.as_slice())?;
    let lines = listed(alloc, g, marks.as_slice())?;
    Ok(Refutation { defs, lines, tree })
}

/// All definitions with their texts.
fn defined(alloc: Global, names: &Names) -> Result<List<Entry>, AllocError>
    requires { AreNamed names.now }
    ensures defs { IfOk result (λ defs. defs ≡ all_defs names.now) }
    ensures few { length names.now.definitions ≤ most_names }
{
    let mut defs = List::new(alloc);
    for (i, def) in names.definitions().iter().enumerate() {
        let text = body_text(alloc, names, &def.body)?;
        defs.push(Entry {
            number: i as u32 + 1,
            text,
        })?;
    }
    Ok(defs)
}

/// A mark for each line: whether the tree splits it.
fn marked(alloc: Global, g: &Ground, tree: &[Node]) -> Result<Vec<bool>, AllocError>
    requires { All (SplitsLine g.now) tree.now }
    ensures { IfOk result (λ marks. marks.items ≡ with_marks (replicate (length g.now.lines) false) tree.now) }
{
    let mut marks = vec![in alloc; false; g.lines.len()]?;
    for node in tree {
        if let Node::Split { line } = node {
            marks[*line as usize - 1] = true;
        }
    }
    Ok(marks)
}

/// The marked lines with their texts, in rising order.
fn listed(alloc: Global, g: &Ground, marks: &[bool]) -> Result<List<Entry>, AllocError>
    requires { length marks.now ≡ length g.now.lines }
    ensures lines { IfOk result (λ lines. lines ≡ marked_lines g.now marks.now (length marks.now)) }
    ensures numbers { IfOk result (λ lines. All HasNumber lines) }
{
    let mut lines = List::new(alloc);
    for (i, is_marked) in marks.iter().enumerate() {
        if *is_marked {
            let Ok(number) = u32::try_from(i + 1) else {
                return Err(AllocError);
            };
            let text = line_text(alloc, g, number)?;
            lines.push(Entry { number, text })?;
        }
    }
    Ok(lines)
}
