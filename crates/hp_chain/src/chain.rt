//! The groups of a problem, and its ground set.
ghost use Rattle.std.specs.Prelude.{◌≡◌, ◌<◌, ◌^◌, IfOk, None, Ok, length};
ghost use Rattle.hp_norm.specs.Flat.{IsFlattenable, flat_of};
ghost use Rattle.hp_sorts.specs.Limits.{passed};
ghost use Rattle.hp_rules.specs.Rules.{rules};
ghost use Rattle.hp_chain.specs.Answers.{ClassifiedAs, DescendedAs, IsChainOf};
ghost use Rattle.hp_chain.specs.Ground.{HasPlainNames, IsReadAs, chain_of};
ghost use Rattle.hp_chain.specs.Order.{levels_of};

use crate::answer::ChainErr;
use crate::order::{function_order, levels};
use hp_class::descend_groups;
use hp_defs::Ground;
use hp_groups::{Group, groups};
use hp_lit::GroundErr;
use hp_norm::{Flat, name_clauses};
use hp_num::List;
use hp_pairs::separate;
use hp_rules::{Ruled, rules};
use hp_tree::Problem;
use std::alloc::{AllocError, Global};

/// The groups of a problem, in the order of their turns: functions from level 16 down to 1, and within a level as they are
/// declared, the arrays of a level together, at the place of the first of them.
#[derive(Drop)]
pub struct Chain {
    pub groups: List<Group>,
}

/// What a problem is once its clauses are read.
#[derive(Drop)]
pub struct Classified {
    pub chain: Chain,
    /// The declared names, the definitions in the clauses, and the lines of the clauses without variables.
    pub ground: Ground,
}

/// The groups of a problem, over the ground set of its clauses without variables.
///
/// The limits of the clauses come first: 4,000 names, 50,000 lines, and coefficients of 2^127 - 1, with the item, counted
/// from 1 over the declarations and then the clauses. Then comes the first clause that breaks a rule of the profile by itself,
/// each exactly where it is the first cause. Then the pairs of cases are tested: `Outside` comes with the first that some
/// values meet, and `Strain` where a number passes 2^127 - 1 over a pair behind pairs that none meet.
///
/// It asks for a problem whose names and sorts are right, within the limits of a text, with less than 2^28 declarations, whose
/// names are never `_` with digits nor `$1` to `$4`, and light: the magnitudes of the numerators of each atom add up to less
/// than 2 * 10^24.
pub fn classify(alloc: Global, p: &Problem) -> Result<Classified, ChainErr>
    requires able { IsFlattenable p.now }
    requires limits { passed p.now ≡ None }
    requires plain { HasPlainNames p.now }
    requires items { length p.now.decls < 2 ^ 28 }
    ensures { ClassifiedAs p.now result }
{
    let flat = name_clauses(alloc, p)?;
    by_rules(alloc, p, flat)
}

/// The same of a problem with these flat clauses.
fn by_rules(alloc: Global, p: &Problem, flat: Flat) -> Result<Classified, ChainErr>
    requires able { IsFlattenable p.now }
    requires limits { passed p.now ≡ None }
    requires plain { HasPlainNames p.now }
    requires items { length p.now.decls < 2 ^ 28 }
    requires named { flat_of p.now ≡ Ok (flat.clauses, flat.ground) }
    ensures { ClassifiedAs p.now result }
{
    match rules(alloc, &flat.ground.names, flat.clauses.as_slice()) {
        Ok(ruled) => by_pairs(alloc, p, flat, &ruled),
        Err(error) => Err(ChainErr::from(error)),
    }
}

/// The same where the clauses keep the rules one by one.
fn by_pairs(alloc: Global, p: &Problem, flat: Flat, ruled: &Ruled) -> Result<Classified, ChainErr>
    requires able { IsFlattenable p.now }
    requires limits { passed p.now ≡ None }
    requires plain { HasPlainNames p.now }
    requires items { length p.now.decls < 2 ^ 28 }
    requires named { flat_of p.now ≡ Ok (flat.clauses, flat.ground) }
    requires ruled { rules flat.ground.names flat.clauses ≡ Ok ruled.now }
    ensures { ClassifiedAs p.now result }
{
    let levels = levels(alloc, p.decls.as_slice())?;
    let functions = levels.len() as u32;
    match separate(
        alloc,
        &flat.ground.names,
        functions,
        ruled.branches.as_slice(),
    ) {
        Ok(()) => {
            let groups = groups_in_turn(alloc, p, &flat, ruled, levels.as_slice())?;
            Ok(Classified {
                chain: Chain { groups },
                ground: flat.ground,
            })
        }
        Err(error) => Err(ChainErr::from(error)),
    }
}

/// The groups of the functions of a problem, which have these levels, in the order of their turns, where its clauses can be
/// taken.
fn groups_in_turn(
    alloc: Global,
    p: &Problem,
    flat: &Flat,
    ruled: &Ruled,
    levels: &[u64],
) -> Result<List<Group>, AllocError>
    requires able { IsFlattenable p.now }
    requires limits { passed p.now ≡ None }
    requires plain { HasPlainNames p.now }
    requires items { length p.now.decls < 2 ^ 28 }
    requires levels { levels.now ≡ levels_of p.now.decls }
    requires taken { IsReadAs p.now (record { flats = flat.now.clauses; ruled = ruled.now }, flat.now.ground) }
    ensures { IfOk result (λ made. made ≡ chain_of p.now (record { flats = flat.now.clauses; ruled = ruled.now }, flat.now.ground)) }
{
    let order = function_order(alloc, levels)?;
    groups(
        alloc,
        &flat.ground.names,
        flat.clauses.as_slice(),
        ruled,
        order.as_slice(),
    )
}

/// The ground set of a problem, from that of its clauses without variables: group by group the definitions that the class
/// needs, the instances of its clauses, and the line of each two applications of its function, which says that their arguments
/// differ or their values are equal. The first application of a function stands with each after it, then the second, in the
/// order of making.
///
/// The limits are those on definitions, on coefficients, with the item of the clause or, for two applications, of the
/// function, and on lines, in the order of making. A limit comes exactly where it is the first that is passed.
pub fn descend(
    alloc: Global,
    p: &Problem,
    chain: &Chain,
    ground: Ground,
) -> Result<Ground, GroundErr>
    requires able { IsFlattenable p.now }
    requires limits { passed p.now ≡ None }
    requires plain { HasPlainNames p.now }
    requires chain { IsChainOf p.now chain.now ground }
    ensures { DescendedAs p.now chain.now result }
{
    let mut g = ground;
    match descend_groups(alloc, chain.groups.as_slice(), &mut g) {
        Ok(()) => Ok(g),
        Err(error) => Err(error),
    }
}
