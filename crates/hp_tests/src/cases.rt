//! Functions by cases: their tables, the rules on their clauses, and the test of two cases with each other.

use crate::asking::answer;
use std::test::Fail;

/// A text, the status, and all that is written, or how it begins.
type Run = (&'static str, u8, &'static str);

const TABLES: [Run; 7] = [
    // without a point
    (
        "fun f(num): num level 1; clause [x:num] x <= 0 -> f(x) = 0; clause [x:num] x > 0 -> f(x) = x;",
        10,
        "satisfiable\nuniverse 1\nfun f/1\n$1 <= 0 -> 0\n$1 > 0 -> $1\nelse 0\nend\n",
    ),
    // an argument without variables becomes an equality of the guard
    (
        "fun f(num, num): num level 1; clause [x:num] f(x, 0) = x; query f(3, 1) = 4;",
        10,
        "satisfiable\nuniverse 1\nfun f/2\n$1 = 3 & $2 = 1 -> 4\n$2 = 0 -> $1\nelse 0\nend\n",
    ),
    // two bounds of one case: the lower one is its value
    (
        "fun f(num): num level 1; clause [x:num] x >= 0 -> f(x) <= 2; clause [x:num] x >= 0 -> 1 <= f(x); query f(3) = 3/2;",
        10,
        "satisfiable\nuniverse 1\nfun f/1\n$1 = 3 -> 3/2\n$1 >= 0 -> 1\nelse 0\nend\n",
    ),
    // an upper one alone
    (
        "fun f(num): num level 1; clause [x:num] x < 0 -> f(x) <= -1;",
        10,
        "satisfiable\nuniverse 1\nfun f/1\n$1 < 0 -> -1\nelse 0\nend\n",
    ),
    // points at equal arguments are one, and a case without a guard
    (
        "const c: num; fun f(num): num level 1; clause [x:num] f(x) >= 0; query c = 1; query f(c) = 2; query f(1) = 2;",
        10,
        "satisfiable\nuniverse 1\nconst c = 1\nfun f/1\n$1 = 1 -> 2\ntrue -> 0\nelse 0\nend\n",
    ),
    // guards with equal literals are one case, though they are written in two ways
    (
        "const c: num; fun f(num): num level 1; clause [x:num] x <= c -> f(x) >= 0; clause [y:num] c >= y -> f(y) <= 1; query c = 0;",
        10,
        "satisfiable\nuniverse 1\nconst c = 0\nfun f/1\n$1 <= c -> 0\nelse 0\nend\n",
    ),
    // a variable that is an argument twice
    (
        "fun f(num, num): num level 1; clause [x:num] f(x, x) = 7;",
        10,
        "satisfiable\nuniverse 1\nfun f/2\n$2 = $1 -> 7\nelse 0\nend\n",
    ),
];

/// The first clause that breaks a rule, and the first rule that it breaks.
const BROKEN: [Run; 15] = [
    ("clause [x:num] x <= 0;", 7, "outside clause 1 rule 1\n"),
    (
        "fun f(num): num level 1; clause [x:num] f(x) + f(x) <= 0;",
        7,
        "outside clause 1 rule 5\n",
    ),
    (
        "fun f(num): num level 1; clause [x:num, y:num] f(x) <= 0;",
        7,
        "outside clause 1 rule 5\n",
    ),
    (
        "fun f(num): num level 1; clause [x:num] f(x + 1) <= 0;",
        7,
        "outside clause 1 rule 5\n",
    ),
    (
        "fun f(num): num level 1; clause [x:num] x != 0 -> f(x) <= 0;",
        7,
        "outside clause 1 rule 6\n",
    ),
    (
        "const i: idx; fun f(num): num level 1; clause [x:num] i = 0 -> f(x) <= 0;",
        7,
        "outside clause 1 rule 6\n",
    ),
    (
        "fun f(num): num level 1; query 0 < 1; clause [x:num] f(x) < 0;",
        7,
        "outside clause 2 rule 7\n",
    ),
    (
        "const c: num; fun f(num): num level 1; clause [x:num] f(x) <= 0 | c < 0;",
        7,
        "outside clause 1 rule 7\n",
    ),
    // a second upper bound
    (
        "fun f(num): num level 1; clause [x:num] f(x) = 0; clause [x:num] f(x) <= 1;",
        7,
        "outside clause 2 rule 7\n",
    ),
    // upper minus lower is too wide, though neither bound is
    (
        "const c: num; fun f(num): num level 1; clause [x:num] f(x) >= 999999999999999999 * (999999999999999999 * (99 * c)); clause [x:num] f(x) <= 999999999999999999 * (999999999999999999 * (0 - 99 * c));",
        7,
        "outside clause 2 rule 7\n",
    ),
    // touching guards, with the one point that lies in both
    (
        "fun f(num): num level 1; clause [x:num] x <= 0 -> f(x) = 0; clause [x:num] x >= 0 -> f(x) = 1;",
        7,
        "outside clause 2 rule 8 with 1 at $1 = 0\n",
    ),
    // the names that occur, in their order behind the arguments, and no others
    (
        "const b, c, d: num; fun f(num): num level 1; clause [x:num] x <= c & d = 1/2 -> f(x) = 0; clause [x:num] c = 2 & x >= c -> f(x) = 1; query b = 0;",
        7,
        "outside clause 2 rule 8 with 1 at $1 = 2, c = 2, d = 1/2\n",
    ),
    // bounds out of order
    (
        "const c, d: num; fun f(num): num level 1; clause [x:num] x = 3 & c = 1 & d = 0 -> f(x) <= d; clause [x:num] x = 3 & c = 1 & d = 0 -> f(x) >= c;",
        7,
        "outside clause 2 rule 9 with 1 at $1 = 3, c = 1, d = 0\n",
    ),
    // rules on single clauses come before those on two, and a case's own bounds before other cases
    (
        "fun f(num): num level 1; clause [x:num] x <= 0 -> f(x) = 0; clause [x:num] x >= 0 -> f(x) = 1; clause [x:num] f(x) < 0;",
        7,
        "outside clause 3 rule 7\n",
    ),
    (
        "fun f(num): num level 1; clause [x:num] x = 0 -> f(x) = 0; clause [x:num] x = 0 & x = 0 -> f(x) >= 1; clause [x:num] x = 0 & x = 0 -> f(x) <= 0;",
        7,
        "outside clause 3 rule 9 with 2 at $1 = 0\n",
    ),
];

#[test]
fn tables_of_cases(rt: HostRuntime) -> Result<(), Fail> {
    for (text, status, output) in TABLES {
        let (found, written) = answer(rt.alloc(), "solve", text.as_bytes())?;
        assert_eq!(rt; found, status, "{text}");
        assert!(rt; written.as_slice() == output.as_bytes(), "{text}");
    }
    Ok(())
}

#[test]
fn broken_rules(rt: HostRuntime) -> Result<(), Fail> {
    for (text, status, output) in BROKEN {
        let (found, written) = answer(rt.alloc(), "solve", text.as_bytes())?;
        assert_eq!(rt; found, status, "{text}");
        assert!(rt; written.as_slice() == output.as_bytes(), "{text}");
    }
    Ok(())
}

const FRONTS: [Run; 8] = [
    (
        "const c, d: num; fun f(num): num level 1; clause [x:num] x <= c -> f(x) = x; clause [x:num] x > c -> f(x) = c; query f(d) > c;",
        20,
        "unsatisfiable\ndef _1 = f(d)\n",
    ),
    (
        "const c, d: num; fun f(num): num level 1; clause [x:num] x <= c -> f(x) = x; clause [x:num] x > c -> f(x) = c; query f(d) < c; query d > c;",
        20,
        "unsatisfiable\ndef _1 = f(d)\n",
    ),
    (
        "fun f(num, num): num level 1; clause [x:num] f(x, 0) = x; query f(3, 0) = 4;",
        20,
        "unsatisfiable\ndef _1 = f(3, 0)\nline 1 clause 2: _1 = 4\nline 2 clause 1 at _1: 0 < 0 | 0 < 0 | _1 = 3\n",
    ),
    (
        "const c: num; fun f(num): num level 1; clause [x:num] x <= c -> f(x) = 0; clause [x:num] x >= c -> f(x) = 1;",
        7,
        "outside clause 2 rule 8 with 1 at $1 = ",
    ),
    (
        "const c, d: num; fun f(num): num level 1; clause [x:num] f(x) >= c; clause [x:num] f(x) <= d;",
        7,
        "outside clause 2 rule 9 with 1 at $1 = ",
    ),
    // a gap between bounds that the constants leave open
    (
        "const c, d: num; fun f(num): num level 1; clause [x:num] c <= d -> f(x) >= c; clause [x:num] c <= d -> f(x) <= d; query c = 1; query d = 2; query f(0) = 3/2;",
        10,
        "satisfiable\nuniverse 1\nconst c = 1\nconst d = 2\nfun f/1\n$1 = 0 -> 3/2\nc <= d -> c\nelse 0\nend\n",
    ),
    // a number that is too wide over the rows of two cases
    (
        "const a, b, c, d: num; fun f(num): num level 1; clause [x:num] a = 1 & b = 999999999999999999 * a & c = 999999999999999999 * b & d = 999999999999999999 * c & x <= 0 -> f(x) <= 0; clause [x:num] x >= 0 -> f(x) <= 1;",
        9,
        "overflow rule 8 clause 2 with 1; chain ",
    ),
    // a monotone function beside one by cases, and a free one
    (
        "const c: num; fun g(num): num level 1; fun h(num): num level 1; fun f(num): num level 1; clause [x:num, y:num] x <= y -> g(x) <= g(y); clause [x:num] x > 0 -> f(x) = x; query g(1) > g(f(2)); query h(c) = 0;",
        20,
        "unsatisfiable\ndef _1 = g(1)\ndef _2 = f(2)\ndef _3 = g(_2)\n",
    ),
];

#[test]
fn answers_with_cases(rt: HostRuntime) -> Result<(), Fail> {
    for (text, status, front) in FRONTS {
        let (found, written) = answer(rt.alloc(), "solve", text.as_bytes())?;
        assert_eq!(rt; found, status, "{text}");
        assert!(rt; written.as_slice().starts_with(front.as_bytes()), "{text}");
    }
    Ok(())
}
