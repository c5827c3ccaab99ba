//! Texts at their limits and past them.

use crate::asking::answer;
use std::alloc::{AllocError, Global};
use std::test::Fail;

const EMPTY: &[u8] = b"satisfiable\nuniverse 1\n";

/// A piece of text so many times, between two others.
fn repeated(
    alloc: Global,
    front: &[u8],
    piece: &[u8],
    times: u32,
    back: &[u8],
) -> Result<Vec<u8>, AllocError> {
    let mut text = front.to_vec(alloc)?;
    for _ in 0..times {
        text.extend_from_slice(piece)?;
    }
    text.extend_from_slice(back)?;
    Ok(text)
}

/// The front of a text, a piece, how often it follows, the end, the status, and all that is written.
type Long = (
    &'static [u8],
    &'static [u8],
    u32,
    &'static [u8],
    u8,
    &'static [u8],
);

const TEXTS: [Long; 10] = [
    (b"", b" ", 1_048_576, b"", 10, EMPTY),
    (b"", b" ", 1_048_577, b"", 8, b"limit bytes 1048576\n"),
    (b"query ", b"(", 65, b"", 5, b"deep 70\n"),
    (b"query ", b"(", 64, b"", 5, b"syntax 70\n"),
    (b"query ", b"(", 64, b")", 5, b"syntax 70\n"),
    (b"query ", b"1+", 1_024, b"1 < 0;", 5, b"deep 2053\n"),
    (
        b"",
        b"query 1<0;\n",
        65_536,
        b"",
        8,
        b"limit clauses 2000\n",
    ),
    (b"", b"query false;", 2_001, b"", 8, b"limit clauses 2000\n"),
    (b"", b"query 0 = 0;", 2_000, b"", 10, EMPTY),
    (
        b"const c: num; query c = 0",
        b"",
        0,
        b";",
        10,
        b"satisfiable\nuniverse 1\nconst c = 0\n",
    ),
];

#[test]
fn long_texts(rt: HostRuntime) -> Result<(), Fail> {
    for (front, piece, times, back, status, wanted) in TEXTS {
        let text = repeated(rt.alloc(), front, piece, times, back)?;
        let (found, written) = answer(rt.alloc(), "solve", text.as_slice())?;
        assert_eq!(rt; found, status);
        assert_eq!(rt; written.as_slice(), wanted);
    }
    Ok(())
}

/// `query `, 64 opening parentheses, a number, and as many closing ones.
fn nested(alloc: Global) -> Result<Vec<u8>, AllocError> {
    let mut text = repeated(alloc, b"query ", b"(", 64, b"1")?;
    let closing = repeated(alloc, b"", b")", 64, b" < 0;")?;
    text.extend_from_slice(closing.as_slice())?;
    Ok(text)
}

#[test]
fn as_deep_as_may_be(rt: HostRuntime) -> Result<(), Fail> {
    let (found, _) = answer(rt.alloc(), "solve", nested(rt.alloc())?.as_slice())?;
    assert_eq!(rt; found, 20);
    let sum = repeated(rt.alloc(), b"query ", b"1+", 1_023, b"1 < 0;")?;
    let (found, _) = answer(rt.alloc(), "solve", sum.as_slice())?;
    assert_eq!(rt; found, 20);
    Ok(())
}

#[test]
fn many_clauses_are_printed(rt: HostRuntime) -> Result<(), Fail> {
    let text = repeated(rt.alloc(), b"", b"query 1<0;\n", 65_536, b"")?;
    let wanted = repeated(rt.alloc(), b"profile 1;\n", b"query 1 < 0;\n", 65_536, b"")?;
    let (found, written) = answer(rt.alloc(), "print", text.as_slice())?;
    assert_eq!(rt; found, 0);
    assert!(rt; written.as_slice() == wanted.as_slice());
    Ok(())
}

/// So many constants of a sort, and their values where each is 0.
fn constants(alloc: Global, count: u32, sort: &str) -> Result<(String, String), AllocError> {
    let mut text = String::from_str(alloc, "const c0")?;
    let mut values = String::from_str(alloc, "satisfiable\nuniverse 1\nconst c0 = 0\n")?;
    for at in 1..count {
        text.push_str(format!(in alloc; ", c{at}")?.as_str())?;
        values.push_str(format!(in alloc; "const c{at} = 0\n")?.as_str())?;
    }
    text.push_str(format!(in alloc; ": {sort};")?.as_str())?;
    Ok((text, values))
}

/// A function at so many arguments, each inside so many more applications, all of which are 0.
fn applications(alloc: Global, count: u32, depth: u32) -> Result<String, AllocError> {
    let mut text = String::from_str(alloc, "fun f(num): num level 1;")?;
    for at in 0..count {
        text.push_str("query ")?;
        for _ in 0..depth {
            text.push_str("f(")?;
        }
        text.push_str(format!(in alloc; "f({at})")?.as_str())?;
        for _ in 0..depth {
            text.push_str(")")?;
        }
        text.push_str(" = 0;")?;
    }
    Ok(text)
}

/// Too many definitions, and too many lines of two applications of one function.
#[test]
fn many_applications(rt: HostRuntime) -> Result<(), Fail> {
    let names = applications(rt.alloc(), 1_334, 2)?;
    let (found, written) = answer(rt.alloc(), "solve", names.as_bytes())?;
    assert_eq!(rt; found, 8);
    assert_eq!(rt; written.as_slice(), b"limit names 4000\n".as_slice());
    let lines = applications(rt.alloc(), 316, 0)?;
    let (found, written) = answer(rt.alloc(), "solve", lines.as_bytes())?;
    assert_eq!(rt; found, 8);
    assert_eq!(rt; written.as_slice(), b"limit lines 50000\n".as_slice());
    Ok(())
}

#[test]
fn many_constants(rt: HostRuntime) -> Result<(), Fail> {
    for sort in ["idx", "num"] {
        let (text, values) = constants(rt.alloc(), 4_000, sort)?;
        let (found, written) = answer(rt.alloc(), "solve", text.as_bytes())?;
        assert_eq!(rt; found, 10);
        assert!(rt; written.as_slice() == values.as_bytes());
        let (text, _) = constants(rt.alloc(), 4_001, sort)?;
        let (found, written) = answer(rt.alloc(), "solve", text.as_bytes())?;
        assert_eq!(rt; found, 8);
        assert_eq!(rt; written.as_slice(), b"limit names 4000\n".as_slice());
    }
    Ok(())
}

/// Bounds that lead from each of 1,900 index constants down to the next, and from the last one back up.
fn ring(alloc: Global, back: u32) -> Result<String, AllocError> {
    let mut text = String::from_str(alloc, "const c0")?;
    for at in 1..1_900u32 {
        text.push_str(format!(in alloc; ", c{at}")?.as_str())?;
    }
    text.push_str(": idx;")?;
    for at in 1..1_900u32 {
        text.push_str(format!(in alloc; "query c{at} <= c{} - 1;", at - 1)?.as_str())?;
    }
    text.push_str(format!(in alloc; "query c0 <= c1899 + {back};")?.as_str())?;
    Ok(text)
}

/// So many fractions in a row, each below the next.
fn rising(alloc: Global, count: u32, last: &str) -> Result<String, AllocError> {
    let mut text = String::from_str(alloc, "const c0")?;
    for at in 1..count {
        text.push_str(format!(in alloc; ", c{at}")?.as_str())?;
    }
    text.push_str(": num;")?;
    for at in 1..count {
        text.push_str(format!(in alloc; "query c{} < c{at};", at - 1)?.as_str())?;
    }
    text.push_str(last)?;
    Ok(text)
}

/// A whole number i, fractions a, b, c and d, and so many others that are below 0 or, where there is a choice, above 5.
/// One descent over all of them would take millions of passes.
fn apart(alloc: Global, count: u32, choice: bool, last: &str) -> Result<String, AllocError> {
    let mut text = String::from_str(alloc, "const i: idx; const a, b, c, d")?;
    for at in 0..count {
        text.push_str(format!(in alloc; ", c{at}")?.as_str())?;
    }
    text.push_str(": num;")?;
    for at in 0..count {
        text.push_str(format!(in alloc; "query c{at} < 0")?.as_str())?;
        if choice {
            text.push_str(format!(in alloc; " | c{at} > 5")?.as_str())?;
        }
        text.push_str(";")?;
    }
    text.push_str(last)?;
    Ok(text)
}

#[test]
fn many_bounds(rt: HostRuntime) -> Result<(), Fail> {
    let alloc = rt.alloc();
    let cases = [
        (ring(alloc, 1_899)?, 10),
        (ring(alloc, 1_898)?, 20),
        (rising(alloc, 40, "")?, 10),
        (rising(alloc, 40, "query c39 < c0;")?, 20),
        (apart(alloc, 24, false, "")?, 10),
        (apart(alloc, 24, false, "query 0 < c6;")?, 20),
    ];
    for (text, status) in cases {
        let (found, _) = answer(rt.alloc(), "solve", text.as_bytes())?;
        assert_eq!(rt; found, status);
    }
    Ok(())
}

/// The one value of d has 54 digits.
const LONG_VALUE: &str =
    "query a = 1; query b = 999999999999999999 * a; query c = 999999999999999999 * b; query d = 999999999999999999 * c;";

/// How many other fractions there are, whether each has a choice, the last clauses, the status, and the front of what is
/// written.
type Beside = (u32, bool, &'static str, u8, &'static [u8]);

const BESIDE: [Beside; 8] = [
    (0, false, "", 9, b"overflow path "),
    (16, false, "", 9, b"overflow path "),
    (60, false, "", 9, b"overflow path "),
    (1_990, false, "", 9, b"overflow path "),
    (16, true, "", 9, b"overflow path "),
    (60, true, "", 9, b"overflow path "),
    (60, false, "query c6 > 0;", 20, b"unsatisfiable\n"),
    (
        60,
        true,
        "query i = 5; query i <= 4;",
        20,
        b"unsatisfiable\n",
    ),
];

#[test]
fn long_values_beside_others(rt: HostRuntime) -> Result<(), Fail> {
    for (count, choice, last, status, front) in BESIDE {
        let mut text = apart(rt.alloc(), count, choice, LONG_VALUE)?;
        text.push_str(last)?;
        let (found, written) = answer(rt.alloc(), "solve", text.as_bytes())?;
        assert_eq!(rt; found, status, "{count} others");
        assert!(rt; written.as_slice().starts_with(front), "{count} others");
    }
    Ok(())
}
