//! The decision on an input, over values alone.

ghost use Rattle.std.specs.Prelude.{◌≡◌, ◌<◌, ◌≤◌, ◌++◌, [], IfOk, List, ℕ, codes, length};
ghost use Rattle.std.specs.Fmt.{decimal};
ghost use Rattle.hp_cert.specs.Refutation.{refutation_text};
ghost use Rattle.hp_model.specs.Written.{structure_text};
ghost use Rattle.hp_grammar.specs.Spells.{IsFault};
ghost use Rattle.hp_cli.specs.Answer.{Does};
ghost use Rattle.hp_cli.specs.Refusals.{line};
ghost use Rattle.hp_tree.specs.Limits.{most_bytes};
ghost use Rattle.hp_cli.specs.Verdicts.{IsBuilt, IsCounted, IsRead};
ghost use Rattle.hp_cli.specs.Words.{IsTask};

use crate::answer::Status;
use crate::refusals;
use crate::words::Task;
use hp_cert::{Refutation, body, overflow_text, pair_overflow_text, write};
use hp_grammar::ReadErr;
use hp_model::{Structure, write_structure};
use hp_num::Text;
use hp_pairs::outside_text;
use hp_read::read;
use hp_roundtrip::reprint;
use hp_solve::{Solved, solve};
use hp_sorts::{SortErr, check, counts};
use hp_text::put_whole;
use hp_tree::{Limit, MOST_BYTES, Problem, Which};
use hp_waiting::is_waiting;
use std::alloc::{AllocError, Global};

/// A whole text and its status.
#[derive(Drop)]
pub struct Answer {
    pub text: Text,
    pub status: Status,
}

/// The text of a structure that satisfies the problem.
fn sat_text(alloc: Global, structure: &Structure) -> Result<Text, AllocError>
    ensures { IfOk result (λ text. text ≡ line (codes "satisfiable") ++ structure_text structure.now) }
{
    let mut out = Text::from_slice(alloc, b"satisfiable\n")?;
    let structure = write_structure(alloc, structure)?;
    out.extend_from_slice(structure.as_slice())?;
    Ok(out)
}

/// The text of a refutation of the problem.
fn unsat_text(alloc: Global, refutation: &Refutation) -> Result<Text, AllocError>
    ensures { IfOk result (λ text. text ≡ line (codes "unsatisfiable") ++ refutation_text refutation.now) }
{
    write(alloc, refutation)
}

/// The text of a search that came to its limit.
fn spent_text(alloc: Global, most: u64, listing: &Refutation) -> Result<Text, AllocError>
    ensures { IfOk result (λ text. text ≡ line (codes "spent " ++ decimal most) ++ refutation_text listing.now) }
{
    let mut out = Text::from_slice(alloc, b"spent ")?;
    put_whole(&mut out, i128::from(most))?;
    out.extend_from_slice(b"\n")?;
    let listing = body(alloc, listing)?;
    out.extend_from_slice(listing.as_slice())?;
    Ok(out)
}

/// The answer where the input has more bytes than a problem may have.
pub fn too_long(alloc: Global, task: Task) -> Result<Answer, AllocError>
    ensures { IfOk result (λ answer. (answer.status ≡ Status.Limit) × ((bytes : List ℕ) → most_bytes < length bytes → Does bytes answer.text task answer.status)) }
{
    let limit = Limit {
        which: Which::Bytes,
        most: MOST_BYTES as u64,
        item: 0,
    };
    Ok(Answer {
        text: refusals::limit(alloc, limit)?,
        status: Status::Limit,
    })
}

/// The answer where the input spells no problem.
fn misspelled(alloc: Global, bytes: &[u8], fault: ReadErr, task: Task) -> Result<Answer, AllocError>
    requires size { length bytes.now ≤ most_bytes }
    requires fault { IsFault bytes.now fault }
    ensures { IfOk result (λ answer. Does bytes.now answer.text task answer.status) }
{
    match fault {
        ReadErr::Memory => Err(AllocError),
        fault => Ok(Answer {
            text: refusals::spelling(alloc, fault)?,
            status: Status::Spelling,
        }),
    }
}

/// The answer for an input. Want of memory is the one error.
pub fn decide(alloc: Global, bytes: &[u8], task: Task) -> Result<Answer, AllocError>
    requires size { length bytes.now ≤ most_bytes }
    requires most { IsTask task }
    ensures { IfOk result (λ answer. Does bytes.now answer.text task answer.status) }
{
    match task {
        Task::Print => print_again(alloc, bytes),
        Task::Solve(most) => match read(alloc, bytes) {
            Err(fault) => misspelled(alloc, bytes, fault, task),
            Ok(problem) => check_and_solve(alloc, bytes, &problem, most),
        },
    }
}

/// The answer by the printed text of the problem that the input spells.
fn print_again(alloc: Global, bytes: &[u8]) -> Result<Answer, AllocError>
    requires size { length bytes.now ≤ most_bytes }
    ensures { IfOk result (λ answer. Does bytes.now answer.text Task.Print answer.status) }
{
    match reprint(alloc, bytes) {
        Err(fault) => misspelled(alloc, bytes, fault, Task::Print),
        Ok(text) => Ok(Answer {
            text,
            status: Status::Done,
        }),
    }
}

/// The answer for a problem by a search with at most so many splits and leaves, where it keeps the rules on names and
/// sorts and the limits of a text.
fn check_and_solve(
    alloc: Global,
    bytes: &[u8],
    problem: &Problem,
    most: u64,
) -> Result<Answer, AllocError>
    requires read { IsRead bytes.now problem.now }
    requires most { 1 ≤ most }
    ensures { IfOk result (λ answer. Does bytes.now answer.text (Task.Solve most) answer.status) }
{
    match check(alloc, problem) {
        Err(SortErr::Memory) => return Err(AllocError),
        Err(fault) => {
            return Ok(Answer {
                text: refusals::sort(alloc, fault)?,
                status: Status::Sort,
            });
        }
        Ok(_) => {}
    }
    match counts(problem) {
        Some(limit) => Ok(Answer {
            text: refusals::limit(alloc, limit)?,
            status: Status::Limit,
        }),
        None => settle(alloc, bytes, problem, most),
    }
}

/// The answer for a problem that keeps the rules on names and sorts and the limits of a text.
fn settle(alloc: Global, bytes: &[u8], problem: &Problem, most: u64) -> Result<Answer, AllocError>
    requires counted { IsCounted bytes.now problem.now }
    requires most { 1 ≤ most }
    ensures { IfOk result (λ answer. Does bytes.now answer.text (Task.Solve most) answer.status) }
{
    if is_waiting(alloc, problem)? {
        Ok(Answer {
            text: refusals::not_built(alloc)?,
            status: Status::NotBuilt,
        })
    } else {
        decided(alloc, bytes, problem, most)
    }
}

/// The answer for such a problem whose clauses are of forms that are decided.
fn decided(alloc: Global, bytes: &[u8], problem: &Problem, most: u64) -> Result<Answer, AllocError>
    requires built { IsBuilt bytes.now problem.now }
    requires most { 1 ≤ most }
    ensures { IfOk result (λ answer. Does bytes.now answer.text (Task.Solve most) answer.status) }
{
    match solve(alloc, problem, most) {
        Solved::Memory => Err(AllocError),
        Solved::Outside(outside) => Ok(Answer {
            text: outside_text(alloc, &outside)?,
            status: Status::Outside,
        }),
        Solved::StrainedPair(strain) => Ok(Answer {
            text: pair_overflow_text(alloc, strain.rule, strain.clause, strain.other, &strain.row)?,
            status: Status::Overflow,
        }),
        Solved::Limit(limit) => Ok(Answer {
            text: refusals::limit(alloc, limit)?,
            status: Status::Limit,
        }),
        Solved::Strained(strain) => Ok(Answer {
            text: overflow_text(alloc, &strain)?,
            status: Status::Overflow,
        }),
        Solved::Sat(structure) => Ok(Answer {
            text: sat_text(alloc, &structure)?,
            status: Status::Sat,
        }),
        Solved::Unsat(refutation) => Ok(Answer {
            text: unsat_text(alloc, &refutation)?,
            status: Status::Unsat,
        }),
        Solved::Spent(listing) => Ok(Answer {
            text: spent_text(alloc, most, &listing)?,
            status: Status::Spent,
        }),
    }
}
