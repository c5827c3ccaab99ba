//! Going over the places of a tree in preorder. The path is the place where the search stands; from its last choice on
//! up, the literals after the chosen ones are the places that wait.
ghost use Rattle.std.specs.Prelude.{◌≡◌, ◌++◌, ◌∷◌, [], IfOk, OnOk, length, replicate};
ghost use Rattle.hp_leaf.specs.declared.tree.Node.TheVariants.{Unopened};
ghost use Rattle.hp_leaf.specs.Tree.{lits_at, IsLine, children};
ghost use Rattle.hp_search.specs.Search.{IsSibling, later, MovedOn};

use hp_leaf::Node;
use hp_lit::{Choice, Line};
use hp_num::List;
use std::alloc::{AllocError, Global};

/// The number of literals of a line.
fn count_of(lines: &[Line], line: u32) -> usize
    ensures { result ≡ length (lits_at lines.now line) }
{
    let at = (line as usize).saturating_sub(1);
    match lines.get(at) {
        Some(found) => found.lits.len(),
        None => 0,
    }
}

/// The choice of the literal after this one, where the line has one.
fn sibling(lines: &[Line], choice: Choice) -> Result<Option<Choice>, AllocError>
    ensures { IfOk result (λ sibling. IsSibling lines.now choice sibling) }
{
    if (choice.lit as usize) < count_of(lines, choice.line) {
        match choice.lit.checked_add(1) {
            Some(lit) => Ok(Some(Choice {
                line: choice.line,
                lit,
            })),
            None => Err(AllocError),
        }
    } else {
        Ok(None)
    }
}

/// Goes on to the next place that waits; false where there is none. An `Err` comes where memory is short, or the number of
/// a literal in its line has more than 32 bits.
#[tactic(auto, using(crate::proofs::Waiting::passed_over, crate::proofs::Waiting::went_on))]
pub fn go_on(lines: &[Line], path: &mut List<Choice>) -> Result<bool, AllocError>
    ensures { IfOk result (λ more. MovedOn lines.now (later lines.now [] path.old) path.new more) }
{
    while let Some(choice) = path.pop() {
        match sibling(lines, choice)? {
            Some(other) => {
                path.push(other)?;
                return Ok(true);
            }
            None => {}
        }
    }
    Ok(false)
}

/// Goes down to the first literal of a line, or on where the line has none. An `Err` comes as from `go_on`.
#[tactic(auto, using(crate::proofs::Waiting::went_down, crate::proofs::Waiting::went_past))]
pub fn enter(lines: &[Line], path: &mut List<Choice>, line: u32) -> Result<bool, AllocError>
    ensures { IfOk result (λ more. MovedOn lines.now (children path.old line 0 (length (lits_at lines.now line)) ++ later lines.now [] path.old) path.new more) }
{
    if count_of(lines, line) == 0 {
        return go_on(lines, path);
    }
    path.push(Choice { line, lit: 1 })?;
    Ok(true)
}

/// Writes an unopened place for each place that waits. An `Err` comes as from `go_on`.
pub fn leave(
    lines: &[Line],
    tree: &mut List<Node>,
    path: &mut List<Choice>,
) -> Result<(), AllocError>
    ensures { OnOk result (tree.new ≡ tree.old ++ replicate (length (path.old ∷ later lines.now [] path.old)) Unopened) }
{
    tree.push(Node::Unopened)?;
    'places: while go_on(lines, path)? {
        tree.push(Node::Unopened)?;
    }
    Ok(())
}
