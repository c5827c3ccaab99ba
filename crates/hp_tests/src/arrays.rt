//! Arrays: the index set and the elements at it, tables, and the rules on clauses over arrays.

use crate::asking::answer;
use std::test::Fail;

/// A text, the status, and all that is written, or how it begins.
type Run = (&'static str, u8, &'static str);

const TABLES: [Run; 9] = [
    (
        "const c: idx; fun a(idx): num level 1; clause [i:idx] c <= i -> a(i) = 1; query a(0) = 0; query c = 1;",
        10,
        "satisfiable\nuniverse 1\nconst c = 1\nfun a/1\n$1 < 1 -> 0\nelse 1\nend\n",
    ),
    // a copy with another value at one place, and all elements at the bounds beside it
    (
        "const k: idx; fun a(idx): num level 1; fun b(idx): num level 1; clause [j:idx] j < k -> b(j) = a(j); clause [j:idx] j > k -> b(j) = a(j); query b(k) = 3; query k = 5; query a(0) = 1; query a(9) = 2; query a(4) = 7; query a(5) = 8; query a(6) = 9;",
        10,
        "satisfiable\nuniverse 1\nconst k = 5\nfun a/1\n$1 < 4 -> 1\n$1 < 5 -> 7\n$1 < 6 -> 8\n$1 < 9 -> 9\nelse 2\nend\nfun b/1\n$1 < 4 -> 1\n$1 < 5 -> 7\n$1 < 6 -> 3\n$1 < 9 -> 9\nelse 2\nend\n",
    ),
    // arrays that no clause joins are a group all the same
    (
        "fun a(idx): num level 1; fun b(idx): num level 1; clause [i:idx] a(i) <= 0; clause [i:idx] b(i) = 1; query a(3) = -1; query a(5) = 0;",
        10,
        "satisfiable\nuniverse 1\nfun a/1\n$1 < 5 -> -1\nelse 0\nend\nfun b/1\n$1 < 5 -> 1\nelse 1\nend\n",
    ),
    // the index 0 where there is no other
    (
        "fun a(idx): num level 1; clause [i:idx] a(i) = 7/2;",
        10,
        "satisfiable\nuniverse 1\nfun a/1\nelse 7/2\nend\n",
    ),
    // a function of an index in no clause is free, and stands where it is declared
    (
        "fun b(idx): num level 1; fun a(idx): num level 1; fun c(idx): num level 2; clause [i:idx] a(i) = 1; query b(3) = 2; query c(-1) = 5;",
        10,
        "satisfiable\nuniverse 1\nfun b/1\n$1 = 3 -> 2\nelse 0\nend\nfun a/1\nelse 1\nend\nfun c/1\n$1 = -1 -> 5\nelse 0\nend\n",
    ),
    // two variables with nothing between them once they are collected
    (
        "fun a(idx): num level 1; clause [i:idx, j:idx] i < j + 1 -> a(i) >= a(j); query a(2) = 1; query a(-4) = 6;",
        10,
        "satisfiable\nuniverse 1\nfun a/1\n$1 < 2 -> 6\nelse 1\nend\n",
    ),
    // bounds on both sides of one variable, by a guard of constants too
    (
        "const l, h: idx; fun a(idx): num level 1; clause [i:idx] l <= h & l <= i & i <= h -> a(i) = 4; query l = 2; query h = 3; query a(1) = 0; query a(4) = 1;",
        10,
        "satisfiable\nuniverse 1\nconst l = 2\nconst h = 3\nfun a/1\n$1 < 2 -> 0\n$1 < 3 -> 4\n$1 < 4 -> 4\nelse 1\nend\n",
    ),
    // an equality gives its bound, and the places beside it have no say
    (
        "const c: idx; fun a(idx): num level 1; clause [i:idx] i = c + 2 -> a(i) = 3; query c = 1; query a(0) = 1; query a(4) = 2;",
        10,
        "satisfiable\nuniverse 1\nconst c = 1\nfun a/1\n$1 < 3 -> 1\n$1 < 4 -> 3\nelse 2\nend\n",
    ),
    // beside a monotone function and one by cases
    (
        "fun f(num): num level 1; fun a(idx): num level 1; fun g(num): num level 1; clause [x:num, y:num] x <= y -> f(x) <= f(y); clause [i:idx] a(i) = 2; clause [x:num] g(x) = 1; query f(0) = 3;",
        10,
        "satisfiable\nuniverse 1\nfun f/1\nelse 3\nend\nfun a/1\nelse 2\nend\nfun g/1\ntrue -> 1\nelse 0\nend\n",
    ),
];

/// The first clause that breaks a rule, and the first rule that it breaks, and forms that aren't decided yet.
const REFUSALS: [Run; 20] = [
    (
        "fun a(idx): num level 1; clause [i:idx, j:idx] i < j -> a(i) < a(j);",
        7,
        "outside clause 1 rule 10\n",
    ),
    (
        "fun a(idx): num level 1; clause [i:idx, j:idx] i <= j + 1 -> a(i) <= a(j);",
        7,
        "outside clause 1 rule 10\n",
    ),
    (
        "fun a(idx): num level 1; clause [i:idx, j:idx] i != j -> a(i) = a(j);",
        7,
        "outside clause 1 rule 10\n",
    ),
    (
        "const c: idx; fun a(idx): num level 1; clause [i:idx] i != c -> a(i) = 0;",
        7,
        "outside clause 1 rule 10\n",
    ),
    // a variable that cancels
    (
        "fun a(idx): num level 1; clause [i:idx] i <= i -> a(i) = 0;",
        7,
        "outside clause 1 rule 10\n",
    ),
    // in the head
    (
        "const c: idx; fun a(idx): num level 1; clause [i:idx] a(i) = 0 | i <= c;",
        7,
        "outside clause 1 rule 10\n",
    ),
    (
        "fun a(idx): num level 1; clause [i:idx, x:num] a(i) <= x;",
        7,
        "outside clause 1 rule 10\n",
    ),
    // guards come before reads
    (
        "fun a(idx): num level 1; clause [i:idx, j:idx] i < j -> a(i + 1) <= 0;",
        7,
        "outside clause 1 rule 10\n",
    ),
    (
        "fun a(idx): num level 1; clause [i:idx] a(i) = 0; clause [i:idx] a(i + 1) <= 0;",
        7,
        "outside clause 2 rule 11\n",
    ),
    (
        "const u: ptr; fun a(idx): num level 1; clause [i:idx] u = null -> a(i) = 0;",
        7,
        "outside clause 1 rule 11\n",
    ),
    // functions of two kinds, and of none
    (
        "fun a(idx): num level 1; fun f(num): num level 1; clause [i:idx, x:num] a(i) <= f(x);",
        7,
        "outside clause 1 rule 3\n",
    ),
    (
        "fun a(idx): num level 1; fun f(num): num level 1; clause [i:idx] f(a(i)) <= 0;",
        7,
        "outside clause 1 rule 3\n",
    ),
    (
        "fun a(idx, idx): num level 1; clause [i:idx, j:idx] a(i, j) = 0;",
        7,
        "outside clause 1 rule 3\n",
    ),
    (
        "fun p(idx): idx level 1; clause [i:idx] p(i) <= 0;",
        7,
        "outside clause 1 rule 3\n",
    ),
    // an index variable in a clause over a function of fractions
    (
        "fun f(num): num level 1; clause [i:idx, x:num] 0 <= i -> f(x) <= 0;",
        7,
        "outside clause 1 rule 5\n",
    ),
    (
        "const i: idx; clause [j:idx] j < i;",
        7,
        "outside clause 1 rule 1\n",
    ),
    // clauses wait before their rules: for a variable, for a signature, and for a second level
    (
        "fun a(idx): num level 1; clause [i:idx, j:idx] i < j -> a(i) < a(j); clause [p:ptr] p = null;",
        13,
        "not built\n",
    ),
    (
        "fun a(idx): num level 1; fun p(idx): ptr level 1; clause [i:idx, j:idx] i < j -> a(i) < a(j); clause [i:idx] p(i) = null;",
        13,
        "not built\n",
    ),
    (
        "fun a(idx): num level 1; fun b(idx): num level 2; clause [i:idx] b(i) <= a(i);",
        13,
        "not built\n",
    ),
    // the limits come first
    (
        "const c: num; fun a(idx): num level 1; clause [i:idx] i != 0 -> a(i) <= 999999999999999999 * (999999999999999999 * (999999999999999999 * c));",
        8,
        "limit coefficient item 3\n",
    ),
];

#[test]
fn tables_of_arrays(rt: HostRuntime) -> Result<(), Fail> {
    for (text, status, output) in TABLES {
        let (found, written) = answer(rt.alloc(), "solve", text.as_bytes())?;
        assert_eq!(rt; found, status, "{text}");
        assert!(rt; written.as_slice() == output.as_bytes(), "{text}");
    }
    Ok(())
}

#[test]
fn clauses_over_arrays(rt: HostRuntime) -> Result<(), Fail> {
    for (text, status, output) in REFUSALS {
        let (found, written) = answer(rt.alloc(), "solve", text.as_bytes())?;
        assert_eq!(rt; found, status, "{text}");
        assert!(rt; written.as_slice() == output.as_bytes(), "{text}");
    }
    Ok(())
}

const FRONTS: [Run; 7] = [
    // an instance at two constants, in the order of their applications
    (
        "const c, d: idx; fun a(idx): num level 1; clause [i:idx, j:idx] i <= j -> a(i) <= a(j); query c <= d; query a(d) < a(c);",
        20,
        "unsatisfiable\ndef _1 = a(d)\ndef _2 = a(c)\nline 1 clause 2: c - d <= 0\nline 2 clause 3: _1 - _2 < 0\nline 5 clause 1 at c, d: d - c <= -1 | -_1 + _2 <= 0\n",
    ),
    (
        "fun a(idx): num level 1; clause [i:idx] a(i) <= 0; clause [i:idx] a(i) >= 1;",
        20,
        "unsatisfiable\ndef _1 = a(0)\nline 1 clause 1 at 0: _1 <= 0\nline 2 clause 2 at 0: -_1 <= -1\n",
    ),
    (
        "const c: idx; fun a(idx): num level 1; clause [i:idx] c <= i -> a(i) = 1; query a(0) = 0; query c = 0;",
        20,
        "unsatisfiable\ndef _1 = a(0)\n",
    ),
    // the values beside the place are free
    (
        "const k: idx; fun a(idx): num level 1; fun b(idx): num level 1; clause [j:idx] j < k -> b(j) = a(j); clause [j:idx] j > k -> b(j) = a(j); query b(k) = 3; query k = 5; query a(0) = 1; query a(9) = 2;",
        10,
        "satisfiable\nuniverse 1\nconst k = 5\nfun a/1\n$1 < 4 -> 1\n$1 < 5 -> ",
    ),
    // the place before a strict bound is one of the index set
    (
        "const k: idx; fun a(idx): num level 1; clause [j:idx] j < k -> a(j) = 1; clause [j:idx] 4 <= j -> a(j) = 2; query k = 5;",
        20,
        "unsatisfiable\ndef _1 = a(k - 1)\n",
    ),
    // and the one behind it
    (
        "const k: idx; fun a(idx): num level 1; clause [j:idx] j > k -> a(j) = 1; clause [j:idx] j <= 6 -> a(j) = 2; query k = 5;",
        20,
        "unsatisfiable\ndef _1 = a(k + 1)\n",
    ),
    // equal indexes under two names
    (
        "const c, d: idx; fun a(idx): num level 1; clause [i:idx] a(i) >= 0; query c = d; query a(c) = 1; query a(d) = 2;",
        20,
        "unsatisfiable\ndef _1 = a(c)\ndef _2 = a(d)\nline 1 clause 2: c - d = 0\nline 2 clause 3: _1 = 1\nline 3 clause 4: _2 = 2\n",
    ),
];

#[test]
fn answers_with_arrays(rt: HostRuntime) -> Result<(), Fail> {
    for (text, status, front) in FRONTS {
        let (found, written) = answer(rt.alloc(), "solve", text.as_bytes())?;
        assert_eq!(rt; found, status, "{text}");
        assert!(rt; written.as_slice().starts_with(front.as_bytes()), "{text}");
    }
    Ok(())
}

/// A clause of three variables over so many elements has too many instances.
#[test]
fn many_instances(rt: HostRuntime) -> Result<(), Fail> {
    let mut text =
        b"fun a(idx): num level 1; clause [i:idx, j:idx, k:idx] i <= j & j <= k -> a(j) <= a(i) + a(k);".to_vec(
            rt.alloc(),
        )?;
    for at in 0..37 {
        let query = format!(in rt.alloc(); "query a({at}) = 0;")?;
        text.extend_from_slice(query.as_bytes())?;
    }
    let (found, written) = answer(rt.alloc(), "solve", text.as_slice())?;
    assert_eq!(rt; found, 8);
    assert!(rt; written.as_slice() == b"limit lines 50000\n".as_slice());
    Ok(())
}

/// An array in a row of constants, and a copy of it in which one element is moved by less than the steps are.
const MOVED: &str =
    "const c0, c1, c2, c3, c4, c5: idx; fun a(idx): num level 1; fun b(idx): num level 1; clause [i:idx] i < c3 -> b(i) = a(i); clause [i:idx] i > c3 -> b(i) = a(i); query c0 < c1; query c1 < c2; query c2 < c3; query c3 < c4; query c4 < c5; query a(c0) + 1 <= a(c1); query a(c1) + 1 <= a(c2); query a(c2) + 1 <= a(c3); query a(c3) + 1 <= a(c4); query a(c4) + 1 <= a(c5); query b(c3) = a(c3) + 1/2; query b(c1) < b(c0) | b(c2) < b(c1) | b(c3) < b(c2) | b(c4) < b(c3) | b(c5) < b(c4);";

/// Cases that inequalities alone make dead cost few nodes.
#[test]
fn few_nodes(rt: HostRuntime) -> Result<(), Fail> {
    let (found, _) = answer(rt.alloc(), "solve --nodes 200", MOVED.as_bytes())?;
    assert_eq!(rt; found, 20);
    Ok(())
}
