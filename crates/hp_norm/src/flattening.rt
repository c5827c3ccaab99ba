//! The clauses of a problem, with and without variables: flat clauses and lines, in the order of the text.

ghost use Rattle.std.specs.Prelude.{◌≡◌, ◌+◌, ◌<◌, ◌≤◌, ◌^◌, length, IfOk, None};
ghost use Rattle.std.specs.List.{All};
ghost use Rattle.hp_tree.specs.Limits.{most_clauses};
ghost use Rattle.hp_terms.specs.Weight.{IsLight, IsLightAtom, IsLightClause};
ghost use Rattle.hp_terms.specs.Words.{IsPlain};
ghost use Rattle.hp_sorts.specs.Faults.{sort_fault};
ghost use Rattle.hp_base.specs.Making.{Begins, Makes};
ghost use Rattle.hp_norm.specs.Answers.{FlatFound, MakesMore};
ghost use Rattle.hp_norm.specs.Flat.{clause_made, clauses_made, flat_clause, has_variables, tested_clause};

use crate::clauses::ground_line;
use crate::declared::{count_constants, declared_names};
use crate::flat::{Flat, FlatClause};
use crate::opening::opened_atoms;
use crate::testing::test_clause;
use hp_base::computed;
use hp_defs::Ground;
use hp_lit::{GroundErr, many_names};
use hp_num::List;
use hp_tree::{Clause, MOST_NAMES, Problem, Var};
use std::alloc::{AllocError, Global};

/// The flat clauses of the clauses with variables of a problem, in the order of the text, and its ground set: its declared
/// names, a definition for each application without variables and for each sum that stands as an argument in one, the line
/// of each such sum, and a line for each clause without variables.
///
/// The number of constants comes first, with the limit of 4,000 names, and then the clauses one by one, with the limits on
/// names, on 50,000 lines, and on coefficients; these name the item, counted from 1 over the declarations and then the
/// clauses. The numbers of a clause with variables are those of the literals of its num atoms, and of those that set one
/// more name equal to a num argument of an application that is left in it. A limit comes exactly where it is the first
/// that is passed.
///
/// It asks for a problem whose names and sorts are right, with at most 2,000 clauses and less than 2^28 declarations, whose
/// declared names are never `_` with digits, and light: the magnitudes of the numerators of each atom add up to less than
/// 2 * 10^24.
pub fn name_clauses(alloc: Global, p: &Problem) -> Result<Flat, GroundErr>
    requires sorted { sort_fault p.now ≡ None }
    requires plain { IsPlain p.now }
    requires light { IsLight p.now }
    requires clauses { length p.now.clauses ≤ most_clauses }
    requires items { length p.now.decls < 2 ^ 28 }
    ensures { FlatFound p.now result }
{
    let decls = p.decls.as_slice();
    if count_constants(decls) > MOST_NAMES {
        return Err(GroundErr::Limit(many_names()));
    }
    let names = declared_names(alloc, decls)?;
    let mut ground = Ground {
        names,
        lines: List::new(alloc),
    };
    let clauses = clauses_made(alloc, &mut ground, decls.len() as u32, p.clauses.as_slice())?;
    Ok(Flat { ground, clauses })
}

/// The flat clauses of these clauses, behind so many items, which count from 1. What has no variables adds its line.
fn clauses_made(
    alloc: Global,
    ground: &mut Ground,
    before: u32,
    clauses: &[Clause],
) -> Result<List<FlatClause>, GroundErr>
    requires before { before < 2 ^ 28 }
    requires most { length clauses.now ≤ most_clauses }
    requires light { All IsLightClause clauses.now }
    ensures made { Makes (clauses_made before 1 clauses.now) ground.old ground.new result }
    ensures kept { Begins ground.old ground.new }
{
    let mut flats = List::new(alloc);
    for (at, clause) in clauses.iter().enumerate() {
        let number = at as u32 + 1;
        add_clause(alloc, ground, before + number, number, clause, &mut flats)?;
    }
    Ok(flats)
}

/// Adds the flat clause of a clause with variables behind those that are there, or the line of a clause without.
#[tactic(auto, using(hp_base::proofs::Making::begins_same, hp_base::proofs::Making::begins_trans))]
fn add_clause(
    alloc: Global,
    ground: &mut Ground,
    item: u32,
    number: u32,
    clause: &Clause,
    flats: &mut List<FlatClause>,
) -> Result<(), GroundErr>
    requires { IsLightClause clause.now }
    ensures made { MakesMore (clause_made item number (has_variables clause.now) clause.now) ground.old ground.new flats.old flats.new result }
    ensures kept { Begins ground.old ground.new }
{
    if has_variables(clause) {
        let flat = flat_clause(alloc, ground, item, number, clause)?;
        flats.push(flat)?;
        Ok(())
    } else {
        ground_line(alloc, ground, item, number, clause)
    }
}

/// Whether the clause has a variable.
fn has_variables(clause: &Clause) -> bool
    ensures { result ≡ has_variables clause.now }
{
    clause.vars.len() > 0
}

/// The flat clause of the clause of this number, which is this item: with the names that its guard and then its head need,
/// and tested.
#[tactic(auto, using(hp_base::proofs::Making::begins_same, hp_base::proofs::Making::begins_trans))]
fn flat_clause(
    alloc: Global,
    ground: &mut Ground,
    item: u32,
    number: u32,
    clause: &Clause,
) -> Result<FlatClause, GroundErr>
    requires { IsLightClause clause.now }
    ensures made { Makes (flat_clause item number clause.now) ground.old ground.new result }
    ensures kept { Begins ground.old ground.new }
{
    let vars = clause.vars.as_slice();
    let guard = opened_atoms(alloc, ground, item, vars, clause.guard.as_slice())?;
    let head = opened_atoms(alloc, ground, item, vars, clause.head.as_slice())?;
    let flat = FlatClause {
        clause: number,
        item,
        vars: copy_vars(alloc, vars)?,
        guard,
        head,
    };
    tested_clause(alloc, ground, flat)
}

/// The flat clause, where no number of its tests is too wide.
#[tactic(auto, using(hp_base::proofs::Making::begins_same))]
fn tested_clause(
    alloc: Global,
    ground: &mut Ground,
    flat: FlatClause,
) -> Result<FlatClause, GroundErr>
    ensures made { Makes (tested_clause flat) ground.old ground.new result }
    ensures kept { Begins ground.old ground.new }
{
    computed(flat.item, test_clause(alloc, &ground.names, &flat))?;
    Ok(flat)
}

/// Equal variables in their order.
fn copy_vars(alloc: Global, vars: &[Var]) -> Result<List<Var>, AllocError>
    ensures { IfOk result (λ all. all ≡ vars.now) }
{
    let mut all = List::new(alloc);
    for var in vars {
        all.push(var.copy(alloc)?)?;
    }
    Ok(all)
}
