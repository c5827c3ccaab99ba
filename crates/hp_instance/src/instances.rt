//! The lines of clauses with variables at arguments.

ghost use Rattle.hp_base.specs.Making.{Begins, Makes};
ghost use Rattle.hp_instance.specs.Instances.{instance};
ghost use Rattle.hp_instance.specs.Laws.{TupleFits};

use crate::literals::sorted_literals;
use crate::replacing::{arg_terms, replaced_atoms};
use crate::sorting::atom_sorts;
use hp_base::{add_line, computed};
use hp_defs::Ground;
use hp_lit::{Arg, GroundErr, Line, Origin};
use hp_norm::{FlatClause, named_atoms};
use hp_num::List;
use std::alloc::Global;

/// Adds the line of a clause at an argument for each of its variables, in their order: the literals of the negated guard
/// atoms and then of the head atoms, each by the sort that its atom has in the clause. Applications at arguments are named
/// first, those of the guard before those of the head. The origin of the line shows the arguments `shown`.
///
/// It asks for arguments of the sorts of the variables that keep the numbers of indexes small: their numerators' magnitudes
/// add up to at most 4 * 10^24 on each side of an atom of sort idx, outside of arguments, and to at most 2 * 10^24 in each
/// argument of an application that is an index. The first limit that is passed is the one that comes, with the item of the
/// clause; at an error what was there before still is.
#[tactic(auto, using(hp_base::proofs::Making::begins_same, hp_base::proofs::Making::begins_trans))]
pub fn instantiate(
    alloc: Global,
    ground: &mut Ground,
    c: &FlatClause,
    args: &[Arg],
    shown: &[Arg],
) -> Result<(), GroundErr>
    requires { TupleFits ground.old.names c.now args.now }
    ensures made { Makes (instance c.now (record { args = args.now; shown = shown.now })) ground.old ground.new result }
    ensures kept { Begins ground.old ground.new }
{
    let vars = c.vars.as_slice();
    let terms = arg_terms(alloc, &ground.names, args)?;
    let guard = replaced_atoms(alloc, vars, terms.as_slice(), c.guard.as_slice())?;
    let head = replaced_atoms(alloc, vars, terms.as_slice(), c.head.as_slice())?;
    let guard_sorts = atom_sorts(alloc, &ground.names, vars, c.guard.as_slice())?;
    let head_sorts = atom_sorts(alloc, &ground.names, vars, c.head.as_slice())?;
    let guard = named_atoms(alloc, ground, c.item, guard.as_slice())?;
    let head = named_atoms(alloc, ground, c.item, head.as_slice())?;
    let lits = sorted_literals(
        alloc,
        &ground.names,
        guard_sorts.as_slice(),
        guard.as_slice(),
        head_sorts.as_slice(),
        head.as_slice(),
    );
    let lits = computed(c.item, lits)?;
    let tuple = List::from_slice(alloc, shown)?;
    let origin = Origin::At {
        clause: c.clause,
        tuple,
    };
    add_line(ground, Line { lits, origin })
}
