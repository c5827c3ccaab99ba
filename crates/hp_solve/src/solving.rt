//! From a problem to its ground lines, from these to what a search finds, and from that to the evidence.

ghost use Rattle.std.specs.Prelude.{◌≡◌, ◌<◌, ◌≤◌, ◌^◌, Err, IfOk, None, false, ℕ, length};
ghost use Rattle.hp_defs.specs.Names.{sorts};
ghost use Rattle.hp_search.specs.Search.{IsCause, IsFound};
ghost use Rattle.hp_sorts.specs.Limits.{passed};
ghost use Rattle.hp_norm.specs.Flat.{IsFlattenable};
ghost use Rattle.hp_chain.specs.Answers.{ClassifiedAs, DescendedAs, HasChain, IsChainOf};
ghost use Rattle.hp_chain.specs.Ground.{HasPlainNames};
ghost use Rattle.hp_waiting.specs.Waiting.{is_waiting};
ghost use Rattle.hp_solve.specs.Solved.{IsInScope, SolvedAs};

use hp_cert::{Refutation, entries};
use hp_chain::{Chain, ChainErr, Classified, ascend, classify, descend};
use hp_defs::{Ground, Names};
use hp_descent::Strain;
use hp_lit::{GroundErr, Name};
use hp_model::Structure;
use hp_num::List;
use hp_pairs::{Outside, PairStrain};
use hp_search::{Found, SearchErr, search};
use hp_tree::{Limit, Problem, Sort};
use std::alloc::{AllocError, Global};

/// The verdict on a problem.
#[derive(Drop)]
pub enum Solved {
    /// A structure that satisfies the problem.
    Sat(Structure),
    /// A refutation of the problem, which no structure satisfies.
    Unsat(Refutation),
    /// The tree of a search that came to its limit, and the lines that it splits.
    Spent(Refutation),
    /// A number passes 2^127 - 1 over the literals of an honest path of the search.
    Strained(Strain),
    /// A clause breaks a rule of the profile, by itself or with another one. It is the first one, and the clauses pass no limit.
    Outside(Outside),
    /// A number passes 2^127 - 1 over the rows of two clauses, and no pair before them breaks a rule.
    StrainedPair(PairStrain),
    /// The problem passes this limit first, in the order in which its ground set is made: that of 4,000 constants and
    /// definitions, that of 50,000 lines, or that on the numbers in the computation of normal forms, none of which may pass
    /// 2^127 - 1. Its item, counted from 1 over the declarations and then the clauses, is the clause, or of a line of
    /// congruence the function, that takes such a number.
    Limit(Limit),
    /// Memory was wanting.
    Memory,
}

/// The sorts of all names, in the order of the names.
fn sorts_of(alloc: Global, names: &Names) -> Result<List<Sort>, AllocError>
    ensures { IfOk result (λ found. found ≡ sorts names.now) }
{
    let mut found = List::new(alloc);
    for at in 0..names.count() {
        found.push(names.sort(Name(at as u32)))?;
    }
    Ok(found)
}

/// The verdict of what a search found.
fn verdict(
    alloc: Global,
    p: &Problem,
    chain: &Chain,
    g: &Ground,
    name_sorts: &[Sort],
    most: u64,
    found: Found,
) -> Solved
    requires chain { HasChain p.now chain.now g.now }
    requires scope { IsInScope p.now }
    requires sorts { name_sorts.now ≡ sorts g.now.names }
    requires found { IsFound (sorts g.now.names) g.now.lines most false found }
    ensures { SolvedAs p.now most result }
{
    match found {
        Found::Model(solution) => {
            match ascend(alloc, p, chain, g, name_sorts, &solution.values) {
                Ok(structure) => Solved::Sat(structure),
                Err(_) => Solved::Memory,
            }
        }
        Found::Closed(tree) => match entries(alloc, g, tree) {
            Ok(refutation) => Solved::Unsat(refutation),
            Err(_) => Solved::Memory,
        },
        Found::Spent(tree) => match entries(alloc, g, tree) {
            Ok(listing) => Solved::Spent(listing),
            Err(_) => Solved::Memory,
        },
    }
}

/// What a search says that gave no answer.
fn unfinished(p: &Problem, chain: &Chain, g: &Ground, error: SearchErr) -> Solved
    requires chain { HasChain p.now chain.now g.now }
    requires scope { IsInScope p.now }
    requires cause { IsCause (sorts g.now.names) g.now.lines error }
    ensures { (most : ℕ) → SolvedAs p.now most result }
{
    match error {
        SearchErr::Strain(strain) => Solved::Strained(strain),
        SearchErr::Memory => Solved::Memory,
    }
}

/// The verdict of a search of the ground lines of a problem.
fn searched(alloc: Global, p: &Problem, chain: &Chain, g: &Ground, most: u64) -> Solved
    requires most { 1 ≤ most }
    requires chain { HasChain p.now chain.now g.now }
    requires scope { IsInScope p.now }
    ensures { SolvedAs p.now most result }
{
    match sorts_of(alloc, &g.names) {
        Err(_) => Solved::Memory,
        Ok(sorts) => {
            match search(alloc, sorts.as_slice(), g.lines.as_slice(), most, false) {
                Ok(found) => verdict(alloc, p, chain, g, sorts.as_slice(), most, found),
                Err(error) => unfinished(p, chain, g, error),
            }
        }
    }
}

/// Decides a problem by a search with at most so many splits and leaves.
///
/// `Outside` and `Limit` come where they are the first cause that the problem has no ground set; in place of the first pair of
/// clauses that breaks a rule a strain over it, or over one before it, may come. Every other problem has a verdict or a strain,
/// unless memory is wanting.
///
/// It asks for at least one split or leaf, and for a problem whose names and sorts are right, with at most 2,000 clauses,
/// clauses of at most 6 variables, functions of at most 4 arguments and less than 2^28 declarations, of whose names none is
/// `_` with digits or `$1` to `$4`, and light: the magnitudes of the numerators of each atom add up to less than 2 * 10^24. It
/// must not wait for a class that isn't there yet (`hp_waiting`).
pub fn solve(alloc: Global, p: &Problem, most: u64) -> Solved
    requires most { 1 ≤ most }
    requires able { IsFlattenable p.now }
    requires limits { passed p.now ≡ None }
    requires plain { HasPlainNames p.now }
    requires built { is_waiting p.now ≡ false }
    requires items { length p.now.decls < 2 ^ 28 }
    ensures { SolvedAs p.now most result }
{
    match classify(alloc, p) {
        Ok(classified) => descended(alloc, p, classified, most),
        Err(error) => unread(p, error),
    }
}

/// What a problem is answered that has no groups.
fn unread(p: &Problem, error: ChainErr) -> Solved
    requires cause { ClassifiedAs p.now (Err error) }
    ensures { (most : ℕ) → SolvedAs p.now most result }
{
    match error {
        ChainErr::Outside(outside) => Solved::Outside(outside),
        ChainErr::Strain(strain) => Solved::StrainedPair(strain),
        ChainErr::Limit(limit) => Solved::Limit(limit),
        ChainErr::Memory => Solved::Memory,
    }
}

/// The verdict on a problem whose clauses are read.
fn descended(alloc: Global, p: &Problem, classified: Classified, most: u64) -> Solved
    requires most { 1 ≤ most }
    requires able { IsFlattenable p.now }
    requires limits { passed p.now ≡ None }
    requires plain { HasPlainNames p.now }
    requires built { is_waiting p.now ≡ false }
    requires classified { IsChainOf p.now classified.chain classified.ground }
    ensures { SolvedAs p.now most result }
{
    let Classified { chain, ground } = classified;
    match descend(alloc, p, &chain, ground) {
        Ok(g) => searched(alloc, p, &chain, &g, most),
        Err(error) => unmade(p, &chain, error),
    }
}

/// What a problem is answered whose groups make no ground set.
fn unmade(p: &Problem, chain: &Chain, error: GroundErr) -> Solved
    requires cause { DescendedAs p.now chain.now (Err error) }
    ensures { (most : ℕ) → SolvedAs p.now most result }
{
    match error {
        GroundErr::Limit(limit) => Solved::Limit(limit),
        GroundErr::Memory => Solved::Memory,
    }
}
