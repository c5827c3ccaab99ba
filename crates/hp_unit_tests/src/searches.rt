//! What lines of literals are answered with ample memory, where the answers are known by hand.
ghost use Rattle.std.specs.Prelude.{◌≡◌, true};
ghost use Rattle.std.specs.List.{All};
ghost use Rattle.hp_search.specs.Lines.{AreFit};

use crate::paths::push_values;
use crate::sides::{I, SORTS, Side, U, V, W, literals};
use hp_descent::{At, Form, Place, Solution, Strain};
use hp_lit::{Choice, Line, Origin, Rel};
use hp_num::List;
use hp_path::are_fit;
use hp_search::{Found, SearchErr, search};
use hp_tree::{MOST_LINES, Sort};
use std::alloc::{AllocError, Global};
use std::test::Fail;

/// 2^100, whose square passes 128 bits.
const LONG: i128 = 1_267_650_600_228_229_401_496_703_205_376;

fn are_lines(sorts: &[Sort], lines: &[Line]) -> bool
    ensures { result ≡ true → All (λ line. AreFit sorts.now line.lits) lines.now }
{
    for line in lines {
        if !are_fit(sorts, line.lits.as_slice()) {
            return false;
        }
    }
    true
}

/// A line for each list of literals.
fn problem(alloc: Global, sides: &[&[Side]]) -> Result<List<Line>, AllocError> {
    let mut lines = List::new(alloc);
    for line in sides {
        lines.push(Line {
            lits: literals(alloc, line)?,
            origin: Origin::Ground { clause: 1 },
        })?;
    }
    Ok(lines)
}

/// What is answered, or nothing where the problem isn't one to ask.
fn found(
    alloc: Global,
    lines: &[Line],
    most: u64,
    exact: bool,
) -> Option<Result<Found, SearchErr>> {
    if most == 0 || lines.len() > MOST_LINES || !are_lines(&SORTS, lines) {
        return None;
    }
    Some(search(alloc, &SORTS, lines, most, exact))
}

/// What was answered, with the number of nodes of a tree.
#[derive(Clone, Copy, Debug, PartialEq, Eq)]
enum Answer {
    Model,
    Closed(usize),
    Spent(usize),
    Strain,
    Unasked,
    NoMemory,
}

fn answer_of(found: Option<Result<Found, SearchErr>>) -> Answer {
    match found {
        None => Answer::Unasked,
        Some(Ok(Found::Model(_))) => Answer::Model,
        Some(Ok(Found::Closed(tree))) => Answer::Closed(tree.len()),
        Some(Ok(Found::Spent(tree))) => Answer::Spent(tree.len()),
        Some(Err(SearchErr::Strain(_))) => Answer::Strain,
        Some(Err(SearchErr::Memory)) => Answer::NoMemory,
    }
}

/// `i <= 0`, `i = 5`, `i = 3`, `c - d < 0` and `d - c <= 0`.
const LOW: Side = Side::Idx(false, I, None, 0);

const FIVE: Side = Side::Idx(true, I, None, 5);

const THREE: Side = Side::Idx(true, I, None, 3);

const BELOW: Side = Side::Num(Rel::Lt, 1, -1, 0);

const ABOVE: Side = Side::Num(Rel::Le, -1, 1, 0);

/// `u = v`, `u != v`, `v = w` and `u != null`.
const SAME: Side = Side::Same(U, V);

const APART: Side = Side::Apart(U, V);

const NEXT: Side = Side::Same(V, W);

const SOME: Side = Side::Apart(U, None);

/// Lines, the limit of nodes, whether values are to be exact, and the answer.
const SEARCHES: [(&[&[Side]], u64, bool, Answer); 15] = [
    (&[&[APART, SAME], &[SOME, FIVE]], 9, false, Answer::Model),
    (
        &[&[APART, LOW], &[SAME], &[FIVE]],
        9,
        false,
        Answer::Closed(5),
    ),
    (
        &[&[SAME], &[NEXT], &[Side::Apart(U, W)]],
        9,
        false,
        Answer::Closed(4),
    ),
    (
        &[&[SAME, LOW], &[APART, BELOW], &[FIVE, SOME]],
        30,
        true,
        Answer::Model,
    ),
    (
        &[&[SAME, NEXT], &[APART], &[Side::Apart(W, V)]],
        9,
        false,
        Answer::Closed(5),
    ),
    (&[], 1, false, Answer::Model),
    (&[&[]], 1, true, Answer::Closed(1)),
    (&[&[THREE], &[]], 1, false, Answer::Closed(1)),
    (&[&[LOW, FIVE]], 9, false, Answer::Model),
    (&[&[LOW, FIVE], &[THREE]], 5, false, Answer::Closed(4)),
    (&[&[LOW, FIVE], &[THREE]], 1, false, Answer::Spent(2)),
    (&[&[THREE], &[FIVE]], 1, false, Answer::Closed(3)),
    (&[&[BELOW], &[ABOVE]], 10, false, Answer::Closed(3)),
    (&[&[LOW, BELOW], &[FIVE]], 10, true, Answer::Model),
    (
        &[&[LOW, BELOW], &[FIVE], &[ABOVE]],
        10,
        false,
        Answer::Closed(5),
    ),
];

#[test]
fn searches(rt: HostRuntime) -> Result<(), Fail> {
    for (sides, most, exact, wanted) in SEARCHES {
        let lines = problem(rt.alloc(), sides)?;
        let answer = answer_of(found(rt.alloc(), lines.as_slice(), most, exact));
        assert_eq!(rt; answer, wanted);
    }
    Ok(())
}

/// The choices of the path, the rows of the chain, and the numerator and denominator of each value.
fn numbers_of(alloc: Global, solution: &Solution) -> Result<List<i128>, AllocError> {
    let mut numbers = List::new(alloc);
    for choice in solution.path.as_slice() {
        numbers.push(i128::from(choice.line))?;
        numbers.push(i128::from(choice.lit))?;
    }
    if let Some(chain) = &solution.chain {
        for row in chain.as_slice() {
            numbers.push(i128::from(*row))?;
        }
    }
    push_values(&mut numbers, &solution.values)?;
    Ok(numbers)
}

#[test]
fn an_exact_model_has_its_chain(rt: HostRuntime) -> Result<(), Fail> {
    // c - d < 0 is false at 0, and is split: path 1.1, chain 2 and 1, c = -1 and the others 0
    let lines = problem(rt.alloc(), &[&[BELOW]])?;
    let found = found(rt.alloc(), lines.as_slice(), 10, true);
    match &found {
        Some(Ok(Found::Model(solution))) => {
            let numbers = numbers_of(rt.alloc(), solution)?;
            let wanted = [1, 1, 2, 1, 0, 1, 0, 1, -1, 1, 0, 1, 0, 1, 0, 1, 0, 1, 0, 1];
            assert_eq!(rt; numbers.as_slice(), wanted.as_slice());
        }
        _ => assert!(rt; false),
    }
    Ok(())
}

/// Whether this is a strain of the sum of line 2's literal, where line 1 is chosen.
fn is_strain_of_sum(strain: &Strain) -> bool {
    let Place::Path(path) = &strain.place;
    path.len() == 1
        && *path.get(0) == Choice { line: 1, lit: 1 }
        && strain.row.form == Form::Sum
        && strain.row.at == At::Literal { line: 2, lit: 1 }
}

#[test]
fn a_sum_that_is_too_wide(rt: HostRuntime) -> Result<(), Fail> {
    // c = 2^100 makes the first line true, and there -2^100 c passes 128 bits
    let high = Side::Num(Rel::Eq, 1, 0, LONG);
    let product = Side::Num(Rel::Lt, -LONG, 0, 0);
    let lines = problem(rt.alloc(), &[&[high], &[product]])?;
    let found = found(rt.alloc(), lines.as_slice(), 10, true);
    match &found {
        Some(Err(SearchErr::Strain(strain))) => assert!(rt; is_strain_of_sum(strain)),
        _ => assert!(rt; false),
    }
    Ok(())
}
