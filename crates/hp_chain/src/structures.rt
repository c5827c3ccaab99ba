//! The structure that values of names give.
ghost use Rattle.std.specs.Prelude.{◌≡◌, ◌≤◌, IfOk, length, map};
ghost use Rattle.hp_lit.specs.Sorts.{AreOfSorts, HaveSorts};
ghost use Rattle.hp_defs.specs.Names.{constant_name, sorts};
ghost use Rattle.hp_class.specs.Frame.{const_values};
ghost use Rattle.hp_class.specs.Small.{AreSmallIdx};
ghost use Rattle.hp_chain.specs.Answers.{HasChain};
ghost use Rattle.hp_chain.specs.Ground.{IsGroundOf};
ghost use Rattle.hp_chain.specs.Structures.{structure_of, tables_from};

use crate::chain::Chain;
use crate::declared::in_order;
use crate::order::levels;
use hp_class::{TablesErr, ascend_groups};
use hp_defs::{Constant, Ground};
use hp_groups::owned;
use hp_lit::Valuation;
use hp_model::{ConstValue, Structure, Table};
use hp_num::{Frac, List};
use hp_rank::ranked;
use hp_tree::{Problem, Sort};
use std::alloc::{AllocError, Global};

/// The structure that values of names give. Its universe has null and the values of pointers by rank; each constant has its
/// value, in the order of declarations; and each function, in that order, has the table of its class: a free function a row
/// for each of its applications in the order of their making, equal arguments once, and 0 elsewhere; a monotone function and
/// an array the step function through its applications; and a function by cases rows for its applications and then its cases.
///
/// It asks for the groups that have made the ground set, the sorts of its names, and values of these sorts, of which those of
/// sort idx have magnitudes of at most 10^37. `Err` says that memory was wanting.
pub fn ascend(
    alloc: Global,
    p: &Problem,
    chain: &Chain,
    g: &Ground,
    sorts: &[Sort],
    values: &Valuation,
) -> Result<Structure, AllocError>
    requires chain { HasChain p.now chain.now g.now }
    requires sorts { sorts.now ≡ Rattle.hp_defs.specs.Names.sorts g.now.names }
    requires sorted { AreOfSorts sorts.now values.now.values }
    requires small { AreSmallIdx sorts.now values.now.values }
    ensures { IfOk result (λ made. (is : IsGroundOf p.now g.now) → made ≡ structure_of is.read.0 g.now.names values.now.values) }
{
    let names = &g.names;
    let by_rank = ranked(alloc, names.count() as usize, sorts, values)?;
    let ranks = by_rank.values.values.as_slice();
    let consts = const_values(alloc, names.constants(), ranks)?;
    let tables = tables(alloc, p, chain, g, by_rank.universe, ranks)?;
    Ok(Structure {
        universe: by_rank.universe,
        consts,
        tables,
    })
}

/// The tables of the functions in the order of declarations, in a universe of so many pointers and at values of the names.
fn tables(
    alloc: Global,
    p: &Problem,
    chain: &Chain,
    g: &Ground,
    size: u32,
    values: &[Frac],
) -> Result<List<Table>, AllocError>
    requires chain { HasChain p.now chain.now g.now }
    requires sorted { HaveSorts (sorts g.now.names) values.now }
    requires small { AreSmallIdx (sorts g.now.names) values.now }
    ensures { IfOk result (λ made. (is : IsGroundOf p.now g.now) → made ≡ tables_from is.read.0 size 0 g.now.names.signatures g.now.names values.now) }
{
    let groups = chain.groups.as_slice();
    let made = match ascend_groups(alloc, groups, size, &g.names, values) {
        Ok(made) => made,
        // Groups of these classes are always ready.
        Err(TablesErr::Slope(_)) => unreachable!(),
        Err(TablesErr::Memory) => return Err(AllocError),
    };
    let levels = levels(alloc, p.decls.as_slice())?;
    let places = owned(alloc, groups)?;
    in_order(alloc, levels.len(), places.as_slice(), made)
}

/// The values of the constants, in the order of declarations.
#[tactic(auto, using(crate::proofs::OneByOne::consts_start, crate::proofs::OneByOne::consts_end))]
fn const_values(
    alloc: Global,
    constants: &[Constant],
    values: &[Frac],
) -> Result<List<ConstValue>, AllocError>
    requires { length constants.now ≤ length values.now }
    ensures { IfOk result (λ consts. consts ≡ const_values (map constant_name constants.now) values.now) }
{
    let mut consts = List::new(alloc);
    for (at, constant) in constants.iter().enumerate() {
        consts.push(ConstValue {
            name: constant.name.copy(alloc)?,
            value: values[at],
        })?;
    }
    Ok(consts)
}
