//! Clauses with variables: monotone functions in all written forms, rules of the profile, and forms that aren't decided yet.

use crate::asking::answer;
use std::alloc::{AllocError, Global};
use std::process::Abort;
use std::test::Fail;

/// A text, the status, and all that is written.
type Run = (&'static str, u8, &'static str);

const RUNS: [Run; 11] = [
    // a step function through two points
    (
        "fun f(num): num level 1; clause [x:num, y:num] x <= y -> f(x) <= f(y); query f(1) = 5; query f(3) = 7;",
        10,
        "satisfiable\nuniverse 1\nfun f/1\n$1 < 3 -> 5\nelse 7\nend\n",
    ),
    // below the least point it isn't 0
    (
        "fun f(num): num level 1; clause [x:num, y:num] x <= y -> f(x) <= f(y); query f(1) = -5;",
        10,
        "satisfiable\nuniverse 1\nfun f/1\nelse -5\nend\n",
    ),
    (
        "fun f(num): num level 1; clause [x:num, y:num] x <= y -> f(x) <= f(y); query f(1) = -5; query f(0) = -7;",
        10,
        "satisfiable\nuniverse 1\nfun f/1\n$1 < 1 -> -7\nelse -5\nend\n",
    ),
    // a falling one, whose points stand in the order of their arguments and not of the text
    (
        "fun f(num): num level 1; clause [x:num, y:num] x <= y -> f(x) >= f(y); query f(3/2) = 1; query f(-1) = 2; query f(1) = 2;",
        10,
        "satisfiable\nuniverse 1\nfun f/1\n$1 < 1 -> 2\n$1 < 3/2 -> 2\nelse 1\nend\n",
    ),
    // without a point, beside a free function of a lower level
    (
        "const c: num; fun f(num): num level 2; fun g(num): num level 1; clause [x:num, y:num] x <= y -> f(x) <= f(y); query c = 1; query g(0) = 2;",
        10,
        "satisfiable\nuniverse 1\nconst c = 1\nfun f/1\nelse 0\nend\nfun g/1\n$1 = 0 -> 2\nelse 0\nend\n",
    ),
    // the second clause of a function in the order of the text, in whatever form it is written
    (
        "fun f(num): num level 1; fun g(num): num level 1; clause [x:num, y:num] x <= y -> f(x) <= f(y); clause [x:num, y:num] y >= x -> g(x) <= g(y); clause [a:num, b:num] a >= b -> f(b) <= f(a);",
        7,
        "outside clause 3 rule 4\n",
    ),
    // also where the clause of monotone shape is a later one
    (
        "fun f(num): num level 1; clause [x:num] f(x) <= 0; clause [x:num, y:num] x <= y -> f(x) <= f(y); clause [x:num, y:num] x <= y -> f(x) <= f(y);",
        7,
        "outside clause 2 rule 4\n",
    ),
    // forms that wait for their class come before all rules: a pointer in a signature, and two levels
    (
        "fun p(num): ptr level 1; fun f(num): num level 1; clause [x:num] f(x) < 0; clause [x:num] p(x) = null;",
        13,
        "not built\n",
    ),
    (
        "fun f(num): num level 1; fun g(num): num level 2; clause [x:num] f(x) < 0; clause [x:num] g(x) <= 0;",
        13,
        "not built\n",
    ),
    (
        "fun f(num): num level 1; clause [x:num, y:num] x <= y -> f(x) <= f(y); clause [x:num, y:num] x <= y -> f(x) <= f(y); clause [x:num] f(x) <= 0;",
        7,
        "outside clause 2 rule 4\n",
    ),
    // the limits of the clauses come before their rules
    (
        "const c: num; fun f(num): num level 1; clause [x:num] f(x) <= 999999999999999999 * (999999999999999999 * (999999999999999999 * c));",
        8,
        "limit coefficient item 3\n",
    ),
];

#[test]
fn universal_clauses(rt: HostRuntime) -> Result<(), Fail> {
    for (text, status, output) in RUNS {
        let (found, written) = answer(rt.alloc(), "solve", text.as_bytes())?;
        assert_eq!(rt; found, status, "{text}");
        assert!(rt; written.as_slice() == output.as_bytes(), "{text}");
    }
    Ok(())
}

/// The sixteen written forms of a clause that says that a function rises or falls, and whether it rises.
const FORMS: [(&str, &str, bool); 16] = [
    ("x <= y", "f(x) <= f(y)", true),
    ("x <= y", "f(y) >= f(x)", true),
    ("x <= y", "f(y) <= f(x)", false),
    ("x <= y", "f(x) >= f(y)", false),
    ("y >= x", "f(x) <= f(y)", true),
    ("y >= x", "f(y) >= f(x)", true),
    ("y >= x", "f(y) <= f(x)", false),
    ("y >= x", "f(x) >= f(y)", false),
    ("y <= x", "f(y) <= f(x)", true),
    ("y <= x", "f(x) >= f(y)", true),
    ("y <= x", "f(x) <= f(y)", false),
    ("y <= x", "f(y) >= f(x)", false),
    ("x >= y", "f(y) <= f(x)", true),
    ("x >= y", "f(x) >= f(y)", true),
    ("x >= y", "f(x) <= f(y)", false),
    ("x >= y", "f(y) >= f(x)", false),
];

/// The status where a function with such a clause has the value `low` at the lesser one of two constants, and `high` at the other.
fn status_between(
    alloc: Global,
    guard: &str,
    head: &str,
    low: &str,
    high: &str,
) -> Result<u8, AllocError> {
    let text = format!(in alloc;
        "const c, d: num; fun f(num): num level 1; clause [x:num, y:num] {guard} -> {head}; query c < d; query f(d) = {high}; query f(c) = {low};"
    )?;
    let (found, _) = answer(alloc, "solve", text.as_bytes())?;
    Ok(found)
}

#[test]
fn monotone_functions(rt: HostRuntime) -> Result<(), Fail> {
    for (guard, head, rises) in FORMS {
        let up = status_between(rt.alloc(), guard, head, "1", "2")?;
        assert_eq!(rt; up, if rises { 10 } else { 20 }, "{guard} -> {head}");
        let down = status_between(rt.alloc(), guard, head, "2", "1")?;
        assert_eq!(rt; down, if rises { 20 } else { 10 }, "{guard} -> {head}");
    }
    Ok(())
}

/// The lines of a monotone function: each pair of its applications in both orders, and then that of equal arguments.
const LINES: &str =
    "unsatisfiable\ndef _1 = f(c)\ndef _2 = f(d)\nline 1 clause 2: c - d < 0\nline 2 clause 3: -_1 + _2 < 0\nline 3 clause 1 at _1, _2: -c + d < 0 | _1 - _2 <= 0\n";

#[test]
fn refutations_with_instances(rt: HostRuntime) -> Result<(), Fail> {
    let text =
        "const c, d: num; fun f(num): num level 1; clause [x:num, y:num] x <= y -> f(x) <= f(y); query c < d; query f(c) > f(d);";
    let (found, written) = answer(rt.alloc(), "solve", text.as_bytes())?;
    assert_eq!(rt; found, 20);
    assert!(rt; written.as_slice().starts_with(LINES.as_bytes()));
    let loose =
        "const c, d: num; fun f(num): num level 1; clause [x:num, y:num] x <= y -> f(x) <= f(y); query c <= d; query f(d) < f(c);";
    let (found, _) = answer(rt.alloc(), "solve", loose.as_bytes())?;
    assert_eq!(rt; found, 20);
    Ok(())
}
