//! The search: at each place values that make every line true, a split of a line that some values leave false, or a
//! leaf. One node is made a turn, so the number of turns is the number of nodes.
ghost use Rattle.std.specs.Prelude.{◌≤◌, IfOk, IfErr, length};
ghost use Rattle.std.specs.List.{All};
ghost use Rattle.hp_tree.specs.Limits.{most_lines};
ghost use Rattle.hp_leaf.specs.Tree.{limit};
ghost use Rattle.hp_search.specs.Lines.{AreFit};
ghost use Rattle.hp_search.specs.Search.{IsAt, IsCause, IsFound, IsNotSpent, Turned};
ghost use Rattle.hp_search.specs.inner.Singles.{AreSinglesOf};

use crate::leading::look;
use crate::looking::{Seen, guess};
use crate::places::{enter, go_on, leave};
use crate::plan::{Plan, first_plan};
use crate::singles::{close_singles, singles_of};
use hp_descent::{Solution, Strain};
use hp_leaf::Node;
use hp_lit::{Choice, Line, Valuation};
use hp_num::List;
use hp_tree::Sort;
use std::alloc::{AllocError, Global};

/// What a search found.
#[derive(Drop)]
pub enum Found {
    /// Values that make every line true.
    Model(Solution),
    /// A tree whose leaves are all valid: no values make every line true.
    Closed(List<Node>),
    /// A tree of as many splits and leaves as were allowed, with a place that wasn't opened.
    Spent(List<Node>),
}

/// Why a search gave no answer.
#[derive(Drop)]
pub enum SearchErr {
    /// A number passes 2^127 - 1 in the descent over the literals over fractions of an honest path, or in the sum of a literal
    /// of a line at values that satisfy them.
    Strain(Strain),
    /// Memory was wanting, or the number of a literal in its line has more than 32 bits.
    Memory,
}

impl From<AllocError> for SearchErr {
    ghost use Rattle.std.specs.Prelude.{◌≡◌};
    ghost use Rattle.hp_search.specs.declared.searching.SearchErr.TheVariants.{Memory as memory};

    ghost from_gives = { λ _ e. e ≡ memory };

    fn from(_error: AllocError) -> SearchErr {
        SearchErr::Memory
    }
}

/// What opening a place led to.
#[derive(Drop)]
enum Turn {
    Model {
        values: Valuation,
        chain: Option<List<u32>>,
    },
    Closed,
    Open,
}

/// Splits or closes the first place that waits.
fn open_place(
    alloc: Global,
    sorts: &[Sort],
    lines: &[Line],
    singles: &[Choice],
    tree: &mut List<Node>,
    path: &mut List<Choice>,
    plan: &mut Plan,
    exact: bool,
) -> Result<Turn, SearchErr>
    requires fit { All (λ line. AreFit sorts.now line.lits) lines.now }
    requires lines { length lines.now ≤ most_lines }
    requires singles { AreSinglesOf lines.now singles.now }
    requires at { IsAt sorts.now lines.now tree.old path.old }
    ensures turned { IfOk result (Turned sorts.now lines.now exact tree.old tree.new path.new) }
    ensures cause { IfErr result (IsCause sorts.now lines.now) }
{
    match look(alloc, sorts, lines, singles, path.as_slice(), plan, exact)? {
        Seen::Model { values, chain } => Ok(Turn::Model { values, chain }),
        Seen::Split(line) => {
            tree.push(Node::Split { line })?;
            if enter(lines, path, line)? {
                Ok(Turn::Open)
            } else {
                Ok(Turn::Closed)
            }
        }
        Seen::Leaf(proof) => {
            tree.push(Node::Leaf(proof))?;
            if go_on(lines, path)? {
                Ok(Turn::Open)
            } else {
                Ok(Turn::Closed)
            }
        }
    }
}

/// The search, place by place in preorder.
fn search_places(
    alloc: Global,
    sorts: &[Sort],
    lines: &[Line],
    singles: &[Choice],
    plan: &mut Plan,
    most: u64,
    exact: bool,
) -> Result<Found, SearchErr>
    requires most { 1 ≤ most }
    requires fit { All (λ line. AreFit sorts.now line.lits) lines.now }
    requires lines { length lines.now ≤ most_lines }
    requires singles { AreSinglesOf lines.now singles.now }
    ensures found { IfOk result (IsFound sorts.now lines.now most exact) }
    ensures cause { IfErr result (IsCause sorts.now lines.now) }
    ensures enough { limit lines.now ≤ most → IfOk result IsNotSpent }
{
    let mut tree = List::new(alloc);
    let mut path = List::new(alloc);
    for _done in 0..most {
        match open_place(
            alloc, sorts, lines, singles, &mut tree, &mut path, plan, exact,
        )? {
            Turn::Model { values, chain } => {
                return Ok(Found::Model(Solution {
                    values,
                    path,
                    chain,
                }));
            }
            Turn::Closed => return Ok(Found::Closed(tree)),
            Turn::Open => {}
        }
    }
    leave(lines, &mut tree, &mut path)?;
    Ok(Found::Spent(tree))
}

/// Searches for values that make every line true, with at most `most` splits and leaves. A tree of lines of one literal
/// that can't all be true is made before that, and may have more.
///
/// `Model` has a value for each name, of the name's sort, those of sort idx of a magnitude of at most 10^37. They make
/// every line true. Where `exact`, those of sort num are what the point of its chain gives, and 0 where a name occurs in
/// no literal of its path; the chain is there exactly then. `Closed` has a tree whose splits name lines and have a tree for
/// each literal, and whose leaves are all valid; there are then no such values. `Spent` has an honest tree with exactly
/// `most` splits and leaves and at least one unopened place: at each split some values make its path true and its line
/// false, and after the first unopened place stand only others. It isn't answered where `most` is at least the product,
/// over the lines, of one plus the number of literals.
///
/// `Strain` has an honest path, and names the first number that passes 2^127 - 1 in the descent over its literals over
/// fractions, or in the sum of a literal of a line at values that satisfy them. `Memory` says that memory was wanting,
/// or that the number of a literal in its line has more than 32 bits.
///
/// It asks for `most` from 1 on and at most 50,000 lines. `sorts` has a sort for each name. Each literal is over fractions, of
/// names of sort num that rise strictly and with no number above 2^127 - 1 in magnitude; over whole numbers, of names of
/// sort idx and with a bound of a magnitude of at most 10^25; or over pointers, of names of sort ptr.
pub fn search(
    alloc: Global,
    sorts: &[Sort],
    lines: &[Line],
    most: u64,
    exact: bool,
) -> Result<Found, SearchErr>
    requires most { 1 ≤ most }
    requires lines { length lines.now ≤ most_lines }
    requires fit { All (λ line. AreFit sorts.now line.lits) lines.now }
    ensures found { IfOk result (IsFound sorts.now lines.now most exact) }
    ensures cause { IfErr result (IsCause sorts.now lines.now) }
    ensures enough { limit lines.now ≤ most → IfOk result IsNotSpent }
{
    let singles = singles_of(alloc, lines)?;
    if let Some(tree) = close_singles(alloc, sorts, lines, singles.as_slice())? {
        return Ok(Found::Closed(tree));
    }
    let mut plan = first_plan(alloc, sorts.len(), lines)?;
    if !exact && plan.lines.len() == 0 {
        if let Some(values) = guess(alloc, sorts, lines, singles.as_slice(), &plan)? {
            return Ok(Found::Model(Solution {
                values,
                path: List::new(alloc),
                chain: None,
            }));
        }
    }
    search_places(
        alloc,
        sorts,
        lines,
        singles.as_slice(),
        &mut plan,
        most,
        exact,
    )
}
