//! Verdicts of which the definitions determine a part: one of a few texts, the front of a text, or the status.

use crate::asking::answer;
use std::alloc::Global;
use std::process::Abort;
use std::test::Fail;

/// Words, a text, the status, and the texts of which one is written.
type Choice = (&'static str, &'static str, u8, &'static [&'static str]);

const CHOICES: [Choice; 6] = [
    // two bounds that conflict: either may be split first, and the cycle may begin at either
    (
        "solve",
        "const i, j: idx; query i < j; query j < i;",
        20,
        &[
            "unsatisfiable\nline 1 clause 1: i - j <= -1\nline 2 clause 2: j - i <= -1\nsplit 1\nsplit 2\nleaf idx +1 +2\n",
            "unsatisfiable\nline 1 clause 1: i - j <= -1\nline 2 clause 2: j - i <= -1\nsplit 1\nsplit 2\nleaf idx +2 +1\n",
            "unsatisfiable\nline 1 clause 1: i - j <= -1\nline 2 clause 2: j - i <= -1\nsplit 2\nsplit 1\nleaf idx +1 +2\n",
            "unsatisfiable\nline 1 clause 1: i - j <= -1\nline 2 clause 2: j - i <= -1\nsplit 2\nsplit 1\nleaf idx +2 +1\n",
        ],
    ),
    // one node is either line
    (
        "solve --nodes 1",
        "const c: num; query c < 0 | c > 0; query c = 0;",
        11,
        &[
            "spent 1\nline 1 clause 1: c < 0 | -c < 0\nsplit 1\nopen\nopen\n",
            "spent 1\nline 2 clause 2: c = 0\nsplit 2\nopen\n",
        ],
    ),
    (
        "solve --nodes 1",
        "const i: idx;\nquery i <= 0 | i = 5;\nquery i = 3;\n",
        11,
        &[
            "spent 1\nline 2 clause 2: i = 3\nsplit 2\nopen\n",
            "spent 1\nline 1 clause 1: i <= 0 | i = 5\nsplit 1\nopen\nopen\n",
        ],
    ),
    (
        "solve",
        "const c: num; query c = 3; query c < 3;",
        20,
        &[
            "unsatisfiable\nline 1 clause 1: c = 3\nline 2 clause 2: c < 3\nsplit 1\nsplit 2\nleaf num 1:-1 2:1\n",
            "unsatisfiable\nline 1 clause 1: c = 3\nline 2 clause 2: c < 3\nsplit 2\nsplit 1\nleaf num 1:1 2:-1\n",
        ],
    ),
    // either line may be split first
    (
        "solve",
        "const u, v: ptr; query u = v; query u != v;",
        20,
        &[
            "unsatisfiable\nline 1 clause 1: u = v\nline 2 clause 2: u != v\nsplit 1\nsplit 2\nleaf ptr 2: 1\n",
            "unsatisfiable\nline 1 clause 1: u = v\nline 2 clause 2: u != v\nsplit 2\nsplit 1\nleaf ptr 1: 2\n",
        ],
    ),
    (
        "solve",
        "const i: idx; query i != i;",
        20,
        &["unsatisfiable\nline 1 clause 1: 0 <= -1 | 0 <= -1\nsplit 1\nleaf idx +1\nleaf idx +1\n"],
    ),
];

#[test]
fn verdicts_with_several_texts(rt: HostRuntime) -> Result<(), Fail> {
    for (line, text, status, outputs) in CHOICES {
        let (found, written) = answer(rt.alloc(), line, text.as_bytes())?;
        assert_eq!(rt; found, status, "{line} on {text}");
        let mut is_one = false;
        for output in outputs {
            is_one = is_one || written.as_slice() == output.as_bytes();
        }
        assert!(rt; is_one, "{line} on {text}");
    }
    Ok(())
}

/// A text, the status, and the front of what is written.
type Front = (&'static str, u8, &'static str);

const FRONTS: [Front; 41] = [
    (
        "const i: idx;\nconst j: idx;\nquery i <= j - 1;\nquery j <= i - 1;\n",
        20,
        "unsatisfiable\nline 1 clause 1: i - j <= -1\nline 2 clause 2: j - i <= -1\nsplit ",
    ),
    (
        "query 1 < 0;",
        20,
        "unsatisfiable\nline 1 clause 1: 0 < -1\nsplit 1\nleaf num 1:",
    ),
    ("query 0 < 1/2;", 10, ""),
    (
        "const c, d: num; query c < d; query d <= c;",
        20,
        "unsatisfiable\nline 1 clause 1: c - d < 0\nline 2 clause 2: -c + d <= 0\nsplit ",
    ),
    (
        "const c, d: num; query c < d;",
        10,
        "satisfiable\nuniverse 1\nconst c = ",
    ),
    ("const c: num; query 2 < c; query c < 3;", 10, ""),
    ("const i: idx; query 2 < i; query i < 3;", 20, ""),
    (
        "const c, d: num; query 1/3 * c = d; query d = 1; query c != 3;",
        20,
        "unsatisfiable\nline 1 clause 1: c - 3*d = 0\nline 2 clause 2: d = 1\nline 3 clause 3: c < 3 | -c < -3\n",
    ),
    (
        "const c, d: num; query c < d -> c < 0; query c = 1; query d >= 2;",
        20,
        "",
    ),
    (
        "const c, d: num; query c < d & d < 5 -> c < 0; query c = 1; query d >= 2;",
        10,
        "",
    ),
    (
        "const i: idx; const c: num; query i < 3 | c < 0; query i = 3; query c >= 0;",
        20,
        "",
    ),
    (
        "const i: idx; const c: num; query i < 3 | c < 0; query i = 3; query c >= -1/2;",
        10,
        "",
    ),
    // numbers of 36 digits are no reason to give up
    (
        "const a, b, c: num; query b - a <= -999999999999999999; query c - b <= -999999999999999999; query a - c <= 1;",
        20,
        "",
    ),
    // the one solution has a number of 54 digits
    (
        "const a, b, c, d: num; query a = 1; query b = 999999999999999999 * a; query c = 999999999999999999 * b; query d = 999999999999999999 * c;",
        9,
        "overflow path ",
    ),
    (
        "const i, j: idx; query i - 4 <= j; query j <= i - 5;",
        20,
        "",
    ),
    ("const i: idx; query i <= 4; query 5 <= i;", 20, ""),
    (
        "const i: idx; query i <= 4; query 4 <= i; query 0 = 0;",
        10,
        "",
    ),
    (
        "const i, j: idx; query i <= j + 2; query i = j + 3;",
        20,
        "",
    ),
    // three falls of 10^18 - 1, and the way back one too short
    (
        "const a, b, c, d: idx; query a <= b - 999999999999999999; query b <= c - 999999999999999999; query c <= d - 999999999999999999;",
        10,
        "satisfiable\nuniverse 1\nconst a = ",
    ),
    (
        "const a, b, c: idx; query a <= b - 999999999999999999; query b <= c - 1; query c <= a + 999999999999999999;",
        20,
        "",
    ),
    (
        "const i, j: idx; query i <= 0 | i = 5; query j < i; query j >= 5;",
        20,
        "",
    ),
    (
        "const i, j: idx; query i <= 0 | i = 5; query j < i; query j >= 4;",
        10,
        "",
    ),
    (
        "const i, j: idx; query i < j | j < i | i = j; query i != j; query j <= i; query i <= j;",
        20,
        "",
    ),
    (
        "const a, b: num; query a < 0 | a > 0; query b = a | b = -a; query b = 0;",
        20,
        "",
    ),
    (
        "const a, b: num; query a <= b; query b <= 2 * a; query a = 3; query b != 3;",
        10,
        "",
    ),
    (
        "const a, b: num; query a + b <= 1; query 2 * (a - b) >= 3; query b > 0;",
        20,
        "",
    ),
    (
        "const a, b: num; query a + b <= 1; query 2 * (a - b) >= 3; query b > -1/4;",
        20,
        "",
    ),
    (
        "const a, b: num; query a + b <= 1; query 2 * (a - b) >= 3; query b >= -1/4;",
        10,
        "",
    ),
    ("const i: idx; query i = 0 -> i = 1; query i = 0;", 20, ""),
    ("const u: ptr;", 10, "satisfiable\nuniverse "),
    // equal arguments have equal values, also where they are written in other words
    (
        "const c, d: num; fun f(num): num level 1; query c = d; query f(c) < f(d);",
        20,
        "unsatisfiable\ndef _1 = f(c)\ndef _2 = f(d)\nline 1 clause 1: c - d = 0\nline 2 clause 2: _1 - _2 < 0\nline 3 equal _1, _2: c - d < 0 | -c + d < 0 | _1 - _2 = 0\nsplit ",
    ),
    (
        "const u, v: ptr; fun n(ptr): ptr level 2; query u = v; query n(u) != n(v);",
        20,
        "unsatisfiable\ndef _1 = n(u)\ndef _2 = n(v)\nline 1 clause 1: u = v\nline 2 clause 2: _1 != _2\nline 3 equal _1, _2: u != v | _1 = _2\nsplit ",
    ),
    (
        "const c: num; fun f(num): num level 1; query f(c + 1) = 0;",
        10,
        "satisfiable\nuniverse 1\nconst c = ",
    ),
    // each argument is whole before the next, inner before outer, the line of a sum at once
    (
        "const c, d: num; fun g(num): num level 1; fun f(num, num): num level 2; query f(g(c) + 1, g(d) + 1) < 0; query f(1 + g(c), 1 + g(d)) >= 0;",
        20,
        "unsatisfiable\ndef _1 = g(c)\ndef _2 = _1 + 1\ndef _3 = g(d)\ndef _4 = _3 + 1\ndef _5 = f(_2, _4)\nline ",
    ),
    // one definition for equal arguments
    (
        "const c: num; fun f(num): num level 1; query f(c + 1) < 0; query f(1 + c) > 0;",
        20,
        "unsatisfiable\ndef _1 = c + 1\ndef _2 = f(_1)\nline 2 clause 1: _2 < 0\nline 3 clause 2: -_2 < 0\nsplit ",
    ),
    // arguments of all sorts
    (
        "const c: num; const i, j: idx; const u, v: ptr; fun f(num, idx, ptr): idx level 1; query i = j + 1; query u = v; query f(c, i, u) < f(c, j + 1, v);",
        20,
        "unsatisfiable\n",
    ),
    (
        "const c: num; const i, j: idx; const u, v: ptr; fun f(num, idx, ptr): idx level 1; query i = j + 1; query u = v; query f(c, i, u) < f(c, j, v);",
        10,
        "satisfiable\n",
    ),
    // a chain of applications, the last of which comes back to the first
    (
        "const a: num; fun f(num): num level 1; query f(f(f(a))) = a; query f(f(f(f(f(a))))) = a; query f(a) != a;",
        20,
        "unsatisfiable\n",
    ),
    (
        "const c: num; query 2 * c <= 3 -> null != null;",
        10,
        "satisfiable\nuniverse 1\nconst c = ",
    ),
    (
        "const u, v, w: ptr; query u = v | u = w; query v != u; query w != u;",
        20,
        "unsatisfiable\nline 1 clause 1: u = v | u = w\n",
    ),
    (
        "const u, v, w: ptr; query u != null; query v != u; query w != u; query w != v; query v = null | w = null;",
        10,
        "satisfiable\nuniverse 3\nconst u = ",
    ),
];

#[test]
fn verdicts_by_status(rt: HostRuntime) -> Result<(), Fail> {
    for (text, status, front) in FRONTS {
        let (found, written) = answer(rt.alloc(), "solve", text.as_bytes())?;
        assert_eq!(rt; found, status, "{text}");
        assert!(rt; written.as_slice().starts_with(front.as_bytes()), "{text}");
    }
    Ok(())
}

#[test]
fn enough_nodes(rt: HostRuntime) -> Result<(), Fail> {
    // an honest tree with an open place has at most 4 nodes here
    let first = b"const i: idx;\nquery i <= 0 | i = 5;\nquery i = 3;\n";
    let (found, _) = answer(rt.alloc(), "solve --nodes 5", first)?;
    assert_eq!(rt; found, 20);
    let second = b"const c: num; query c < 0 | c > 0; query c = 0;";
    let (found, _) = answer(rt.alloc(), "solve --nodes 6", second)?;
    assert_eq!(rt; found, 20);
    Ok(())
}

/// The whole numbers of a structure, in the order of the constants.
fn values(rt: &impl Abort, alloc: Global, text: &str) -> Result<Vec<i128>, Fail> {
    let (found, written) = answer(alloc, "solve", text.as_bytes())?;
    assert_eq!(rt; found, 10, "{text}");
    let lines = String::from_utf8(written)?;
    let mut values = Vec::new(alloc);
    for line in lines.lines().skip(2) {
        if let Some((_, value)) = line.split_once(" = ") {
            values.push(value.parse()?)?;
        }
    }
    Ok(values)
}

#[test]
fn values_make_the_text_true(rt: HostRuntime) -> Result<(), Fail> {
    let apart = values(
        &rt,
        rt.alloc(),
        "const i: idx;\nconst j: idx;\nquery i <= j - 1;\n",
    )?;
    assert!(rt; apart.len() == 2 && apart[0] < apart[1]);
    let either = values(&rt, rt.alloc(), "const i: idx;\nquery i <= 0 | i = 5;\n")?;
    assert!(rt; either.len() == 1 && (either[0] <= 0 || either[0] == 5));
    Ok(())
}
