//! Runs whose status and output the definitions determine.

use crate::asking::{Faults, answer_in_pieces};
use std::test::Fail;

const USAGE: &str =
    "usage: hpilot solve [--nodes N], check, classify, instances, print, bench A B\n";

const EMPTY: &str = "satisfiable\nuniverse 1\n";

/// Words, a text, the status, and all that is written.
type Run = (&'static str, &'static str, u8, &'static str);

/// No words, words of no command, and numbers of nodes that aren't 1 to 1,000,000 in plain digits.
const USAGES: [Run; 9] = [
    ("", "", 2, USAGE),
    ("check", "", 2, USAGE),
    ("print print", "", 2, USAGE),
    ("solve --nodes", "", 2, USAGE),
    ("solve --nodes 0", "", 2, USAGE),
    ("solve --nodes 01", "", 2, USAGE),
    ("solve --nodes +1", "", 2, USAGE),
    ("solve --nodes 1000001", "", 2, USAGE),
    ("solve --nodes 1000000", "", 10, EMPTY),
];

/// A controller of trains, whose functions aren't decided yet, and the same without the end of its last clause.
const TRAINS: &str =
    "const m, b, k: idx;\nfun s(num): num level 1;\nfun p(idx): num level 2;\nfun q(idx): num level 2;\nclause [x:num] x <= 100 -> s(x) <= 20;\nclause [x:num] x > 100 -> s(x) <= 40;\nclause [i:idx, j:idx] i <= j -> p(j) <= p(i);\nclause [i:idx] m <= i & i <= k -> q(i) <= p(i) + s(p(i));\nclause [i:idx] m <= i & i <= k -> p(i) <= q(i);\nquery m <= b;\nquery b <= k;\nquery p(m) - p(b) >= 40;\nquery q(k) > q(m);\n";

const TRAINS_CUT: &str =
    "const m, b, k: idx;\nfun s(num): num level 1;\nfun p(idx): num level 2;\nfun q(idx): num level 2;\nclause [x:num] x <= 100 -> s(x) <= 20;\nclause [x:num] x > 100 -> s(x) <= 40;\nclause [i:idx, j:idx] i <= j -> p(j) <= p(i);\nclause [i:idx] m <= i & i <= k -> q(i) <= p(i) + s(p(i));\nclause [i:idx] m <= i & i <= k -> p(i) <= q(i);\nquery m <= b;\nquery b <= k;\nquery p(m) - p(b) >= 40;\nquery q(k) > q(m)";

/// Faults of spelling with their places.
const FAULTS: [Run; 17] = [
    ("solve", TRAINS_CUT, 5, "syntax 394\n"),
    ("solve", "const c: num;\nquery c < ", 5, "syntax 24\n"),
    ("solve", "query 1 < 0; é", 5, "syntax 13\n"),
    ("solve", "# é\n", 10, EMPTY),
    ("solve", "query 1 < 0", 5, "syntax 11\n"),
    ("solve", "query 1/0 < 1;", 5, "syntax 8\n"),
    ("solve", "profile 2;", 5, "syntax 8\n"),
    ("solve", "const null: num;", 5, "syntax 6\n"),
    ("solve", "query -> 1 < 2;", 5, "syntax 6\n"),
    ("solve", "query f() < 1;", 5, "syntax 8\n"),
    ("solve", "query 2 * 3 < 1;", 5, "syntax 10\n"),
    ("solve", "query 1 < 2; const c: num;", 5, "syntax 13\n"),
    ("solve", "query 1 < 2 ! 3;", 5, "syntax 12\n"),
    ("solve", "const i: idx\nquery", 5, "syntax 13\n"),
    (
        "solve",
        "query 1000000000000000000 < 0;",
        5,
        "long-numeral 6\n",
    ),
    (
        "print",
        "query 1000000000000000000 < 0;",
        5,
        "long-numeral 6\n",
    ),
    (
        "print",
        "query c < 0; fun f(num,ptr):num level 99;",
        5,
        "syntax 13\n",
    ),
];

/// Names and sorts, limits of the text, rules of the profile, and forms that aren't decided yet, the first cause in their order.
const REFUSALS: [Run; 22] = [
    ("solve", TRAINS, 13, "not built\n"),
    ("solve", "const c: num; const c: idx;", 6, "sort 2 twice\n"),
    ("solve", "query c < 0;", 6, "sort 1 unknown\n"),
    ("solve", "fun f(num): num level 17;", 6, "sort 1 level\n"),
    (
        "solve",
        "fun f(num): num level 1; query f(1, 2) = 0;",
        6,
        "sort 2 arity\n",
    ),
    (
        "solve",
        "const u: ptr; query u < null;",
        6,
        "sort 2 mismatch\n",
    ),
    (
        "solve",
        "clause [a:num, b:num, c:num, d:num, e:num, f:num, g:num] a < x;",
        6,
        "sort 1 unknown\n",
    ),
    (
        "solve",
        "clause [a:num, b:num, c:num, d:num, e:num, f:num, g:num] a < b;",
        8,
        "limit variables 6\n",
    ),
    (
        "solve",
        "clause [a:num, b:num, c:num, d:num, e:num, f:num] a < b;",
        7,
        "outside clause 1 rule 1\n",
    ),
    (
        "solve",
        "fun f(num, num, num, num, num): num level 1;",
        8,
        "limit arguments 4\n",
    ),
    (
        "solve",
        "const i: idx; clause [x:idx] x < i;",
        7,
        "outside clause 1 rule 1\n",
    ),
    ("solve", "clause [p:ptr] p = null;", 13, "not built\n"),
    (
        "solve",
        "fun a(ptr): num level 1; fun f(num): num level 1; clause [x:num] f(a(null) + x) = 0; clause [x:num, p:ptr] a(p) = x;",
        13,
        "not built\n",
    ),
    // a function of monotone shape is that of one clause alone, the second one counts
    (
        "solve",
        "fun p(num): idx level 1; clause [x:num, y:num] x <= y -> p(x) <= p(y);",
        7,
        "outside clause 1 rule 3\n",
    ),
    (
        "solve",
        "fun f(num): num level 1; query f(1) = 5; clause [x:num, y:num] x <= y -> f(x) <= f(y); clause [x:num, y:num] x <= y -> f(x) >= f(y); clause [x:num] f(x) = 0;",
        7,
        "outside clause 3 rule 4\n",
    ),
    (
        "solve",
        "fun f(num): num level 1; clause [x:num] f(x) = 0; clause [x:num, y:num] x <= y -> f(x) <= f(y); clause [x:num, y:num] x <= y -> f(x) <= f(y);",
        7,
        "outside clause 2 rule 4\n",
    ),
    // the argument's form is too wide, in the clause that has it, and then a line of congruence, in the function
    (
        "solve",
        "const c: num; fun f(num): num level 1; query c = 0; query f(999999999999999999 * (999999999999999999 * (999999999999999999 * c))) = 0;",
        8,
        "limit coefficient item 4\n",
    ),
    (
        "solve",
        "fun f(num): num level 1; query f(999999999999999999 * (999999999999999999)) = 0; query f(1/999999999999999999 * (1/999999999999999999)) = 0;",
        8,
        "limit coefficient item 1\n",
    ),
    (
        "solve",
        "const c: num; query 999999999999999999 * (999999999999999999 * c) < 0;",
        10,
        "satisfiable\nuniverse 1\nconst c = -1\n",
    ),
    (
        "solve",
        "const c: num; query 999999999999999999 * (999999999999999999 * (999999999999999999 * c)) < 0; query false;",
        8,
        "limit coefficient item 2\n",
    ),
    (
        "print",
        "const c: num; const c: idx;",
        0,
        "profile 1;\nconst c: num;\nconst c: idx;\n",
    ),
    (
        "print",
        "fun f(num, num, num, num, num): num level 99;",
        0,
        "profile 1;\nfun f(num, num, num, num, num): num level 99;\n",
    ),
];

const TRAINS_PRINTED: &str =
    "profile 1;\nconst m: idx;\nconst b: idx;\nconst k: idx;\nfun s(num): num level 1;\nfun p(idx): num level 2;\nfun q(idx): num level 2;\nclause [x:num] x <= 100 -> s(x) <= 20;\nclause [x:num] x > 100 -> s(x) <= 40;\nclause [i:idx, j:idx] i <= j -> p(j) <= p(i);\nclause [i:idx] m <= i & i <= k -> q(i) <= p(i) + s(p(i));\nclause [i:idx] m <= i & i <= k -> p(i) <= q(i);\nquery m <= b;\nquery b <= k;\nquery p(m) - p(b) >= 40;\nquery q(k) > q(m);\n";

/// Printed forms of declarations and clauses.
const PRINTED: [Run; 6] = [
    ("print", TRAINS, 0, TRAINS_PRINTED),
    ("print", "", 0, "profile 1;\n"),
    (
        "print",
        "  query   1<0 ; # end",
        0,
        "profile 1;\nquery 1 < 0;\n",
    ),
    (
        "print",
        "query f(c,1/2)!=-x;",
        0,
        "profile 1;\nquery f(c, 1/2) != -x;\n",
    ),
    (
        "print",
        "profile 01;const c,d:ptr;fun f(num):idx level 3;fun f(idx,ptr,num):num level 016;",
        0,
        "profile 1;\nconst c: ptr;\nconst d: ptr;\nfun f(num): idx level 3;\nfun f(idx, ptr, num): num level 16;\n",
    ),
    (
        "print",
        "clause[v:num,v:idx,v:ptr]x<=y&x<y->x=y|x!=y;clause[v:num]x>=y->false;clause[]x>y;query x>y->x>=y;query false;",
        0,
        "profile 1;\nclause [v:num, v:idx, v:ptr] x <= y & x < y -> x = y | x != y;\nclause [v:num] x >= y -> false;\nclause [] x > y;\nquery x > y -> x >= y;\nquery false;\n",
    ),
];

/// Verdicts that have one text.
const VERDICTS: [Run; 19] = [
    ("solve", "", 10, EMPTY),
    (
        "solve",
        "const i: idx;\nquery i <= i - 1;\n",
        20,
        "unsatisfiable\nline 1 clause 1: 0 <= -1\nsplit 1\nleaf idx +1\n",
    ),
    (
        "solve",
        "const i: idx; query i = 1 + i;",
        20,
        "unsatisfiable\nline 1 clause 1: 0 = 1\nsplit 1\nleaf idx -1\n",
    ),
    (
        "solve",
        "query false;",
        20,
        "unsatisfiable\nline 1 clause 1: false\nsplit 1\n",
    ),
    (
        "solve",
        "const i, j: idx; query i = 3; query j = i + 2;",
        10,
        "satisfiable\nuniverse 1\nconst i = 3\nconst j = 5\n",
    ),
    (
        "solve",
        "const c: num; query 3 * c - 1/2 = 1/3;",
        10,
        "satisfiable\nuniverse 1\nconst c = 5/18\n",
    ),
    (
        "solve",
        "const i: idx; const c: num; query i = -7; query 4 * c = -3;",
        10,
        "satisfiable\nuniverse 1\nconst i = -7\nconst c = -3/4\n",
    ),
    (
        "solve",
        "const i: idx; query i <= 0 | i = 5; query i >= 1;",
        10,
        "satisfiable\nuniverse 1\nconst i = 5\n",
    ),
    (
        "solve",
        "const i: idx; query i < 5 -> false; query i <= 0 | i = 5;",
        10,
        "satisfiable\nuniverse 1\nconst i = 5\n",
    ),
    ("solve", "query null = null;", 10, EMPTY),
    (
        "solve",
        "fun f(num): num level 16; fun g(num): num level 1;",
        10,
        "satisfiable\nuniverse 1\nfun f/1\nelse 0\nend\nfun g/1\nelse 0\nend\n",
    ),
    (
        "solve",
        "fun f(num, idx): num level 1; query f(1/2, 3) = -5; query f(1/2, 4) = 7;",
        10,
        "satisfiable\nuniverse 1\nfun f/2\n$1 = 1/2 & $2 = 3 -> -5\n$1 = 1/2 & $2 = 4 -> 7\nelse 0\nend\n",
    ),
    (
        "solve",
        "const c: num; fun f(num): num level 1; query c = 2; query f(c) = 3; query f(2) = 3;",
        10,
        "satisfiable\nuniverse 1\nconst c = 2\nfun f/1\n$1 = 2 -> 3\nelse 0\nend\n",
    ),
    (
        "solve",
        "const u: ptr; fun n(ptr): ptr level 2; query n(u) = null; query n(null) = u; query u != null;",
        10,
        "satisfiable\nuniverse 2\nconst u = 1\nfun n/1\n$1 = 1 -> 0\n$1 = 0 -> 1\nelse 0\nend\n",
    ),
    (
        "solve",
        "const u: ptr; query u != null;",
        10,
        "satisfiable\nuniverse 2\nconst u = 1\n",
    ),
    (
        "solve",
        "const u, v: ptr; query u != null; query u = v;",
        10,
        "satisfiable\nuniverse 2\nconst u = 1\nconst v = 1\n",
    ),
    (
        "solve",
        "const u: ptr; query u != u;",
        20,
        "unsatisfiable\nline 1 clause 1: u != u\nsplit 1\nleaf ptr 1:\n",
    ),
    (
        "solve",
        "const u: ptr; const i: idx; const c: num; query u = null -> i = 1; query i = 2; query c = 1/2;",
        10,
        "satisfiable\nuniverse 2\nconst u = 1\nconst i = 2\nconst c = 1/2\n",
    ),
    (
        "solve --nodes 1",
        "query false;",
        20,
        "unsatisfiable\nline 1 clause 1: false\nsplit 1\n",
    ),
];

/// Each run once with ample room, and over streams that pass on at most 1 or 7 bytes in a call.
#[test]
fn runs_with_one_answer(rt: HostRuntime) -> Result<(), Fail> {
    let tables: [&[Run]; 5] = [&USAGES, &FAULTS, &REFUSALS, &PRINTED, &VERDICTS];
    for table in tables {
        for (line, text, status, wanted) in table {
            for piece in [1, 7, 65_536] {
                let faults = Faults {
                    piece,
                    read: 0,
                    write: 0,
                };
                let (found, written) = answer_in_pieces(rt.alloc(), line, text.as_bytes(), faults)?;
                assert_eq!(rt; found, *status, "{line} on {text}");
                assert_eq!(rt; written.as_slice(), wanted.as_bytes(), "{line} on {text}");
            }
        }
    }
    Ok(())
}
