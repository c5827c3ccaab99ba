//! Printed forms, by the rules of the language: literals of atoms in refutations, and parentheses of terms.

use crate::asking::answer;
use std::alloc::{AllocError, Global};
use std::process::Abort;
use std::test::Fail;

/// A sort, an atom over `i` and `j`, its literals in the head, and those in the guard.
type Literals = (&'static str, &'static str, &'static str, &'static str);

const ATOMS: [Literals; 23] = [
    ("idx", "i <= 3", "i <= 3", "-i <= -4"),
    ("idx", "i < 3", "i <= 2", "-i <= -3"),
    ("idx", "3 > j", "j <= 2", "-j <= -3"),
    ("idx", "i - 3 = 4", "i = 7", "i <= 6 | -i <= -8"),
    ("idx", "i >= 5 + j - 3", "j - i <= -2", "i - j <= 1"),
    ("idx", "i <= j", "i - j <= 0", "j - i <= -1"),
    ("idx", "i < j", "i - j <= -1", "j - i <= 0"),
    ("idx", "i = j", "i - j = 0", "i - j <= -1 | j - i <= -1"),
    ("idx", "i != j", "i - j <= -1 | j - i <= -1", "i - j = 0"),
    ("idx", "i >= j", "j - i <= 0", "i - j <= -1"),
    ("idx", "i > j", "j - i <= -1", "i - j <= 0"),
    ("num", "i <= j", "i - j <= 0", "-i + j < 0"),
    ("num", "i < j", "i - j < 0", "-i + j <= 0"),
    ("num", "i = j", "i - j = 0", "i - j < 0 | -i + j < 0"),
    ("num", "j = i", "-i + j = 0", "-i + j < 0 | i - j < 0"),
    ("num", "i != j", "i - j < 0 | -i + j < 0", "i - j = 0"),
    ("num", "i >= j", "-i + j <= 0", "i - j < 0"),
    ("num", "i > j", "-i + j < 0", "i - j <= 0"),
    (
        "num",
        "2 * i - 1/2 * j + 3 <= 0",
        "4*i - j <= -6",
        "-4*i + j < 6",
    ),
    ("num", "1/3 * i + 1/2 <= 0", "2*i <= -3", "-2*i < 3"),
    (
        "num",
        "1/3 * (i + j) = 0",
        "i + j = 0",
        "i + j < 0 | -i - j < 0",
    ),
    (
        "num",
        "6 * i - 4 * j - 10 > 0",
        "-3*i + 2*j < -5",
        "3*i - 2*j <= 5",
    ),
    ("num", "-(i - j) + j < i", "-i + j < 0", "i - j <= 0"),
];

#[test]
fn literals_of_atoms(rt: HostRuntime) -> Result<(), Fail> {
    for (sort, atom, head, guard) in ATOMS {
        let text = format!(in rt.alloc();
            "const i, j: {sort}; query {atom}; query {atom} -> false;"
        )?;
        let front = format!(in rt.alloc();
            "unsatisfiable\nline 1 clause 1: {head}\nline 2 clause 2: {guard}\nsplit "
        )?;
        let (found, written) = answer(rt.alloc(), "solve", text.as_bytes())?;
        assert_eq!(rt; found, 20, "{text}");
        assert!(rt; written.as_slice().starts_with(front.as_bytes()), "{text}");
    }
    Ok(())
}

/// A term of each kind: as a whole term, as an operand, and as a factor.
const TERMS: [[&str; 3]; 9] = [
    ["7", "7", "(7)"],
    ["3/4", "3/4", "(3/4)"],
    ["null", "null", "null"],
    ["x", "x", "x"],
    ["f(x, y)", "f(x, y)", "f(x, y)"],
    ["x + y", "(x + y)", "(x + y)"],
    ["x - y", "(x - y)", "(x - y)"],
    ["-x", "(-x)", "(-x)"],
    ["2 * x", "2 * x", "(2 * x)"],
];

/// What stands before and behind a term: a whole term in the first three, an operand in the next, and a factor.
const PLACES: [[&str; 2]; 7] = [
    ["", " + z"],
    ["", " - z"],
    ["f(", ", z)"],
    ["z + ", ""],
    ["z - ", ""],
    ["-", ""],
    ["2 * ", ""],
];

/// A term in needless parentheses is printed between these two as this text.
fn expect_printed(
    rt: &impl Abort,
    alloc: Global,
    place: [&str; 2],
    term: &str,
    printed: &str,
) -> Result<(), AllocError> {
    let [before, behind] = place;
    let text = format!(in alloc; "query {before}(({term})){behind} = ((0));")?;
    let wanted = format!(in alloc; "profile 1;\nquery {before}{printed}{behind} = 0;\n")?;
    let (found, written) = answer(alloc, "print", text.as_bytes())?;
    assert_eq!(rt; found, 0);
    assert_eq!(rt; written.as_slice(), wanted.as_bytes());
    Ok(())
}

#[test]
fn parentheses_of_each_term_at_each_place(rt: HostRuntime) -> Result<(), Fail> {
    for [whole, operand, factor] in TERMS {
        for (at, place) in PLACES.into_iter().enumerate() {
            match at {
                0..=2 => expect_printed(&rt, rt.alloc(), place, whole, whole)?,
                3..=5 => expect_printed(&rt, rt.alloc(), place, whole, operand)?,
                _ => expect_printed(&rt, rt.alloc(), place, whole, factor)?,
            }
        }
    }
    Ok(())
}

/// Whether 2, 3 and 4 stand in the relation to 3.
const RELATIONS: [(&str, [bool; 3]); 6] = [
    ("<=", [true, true, false]),
    ("<", [true, false, false]),
    ("=", [false, true, false]),
    ("!=", [true, false, true]),
    (">=", [false, true, true]),
    (">", [false, false, true]),
];

#[test]
fn relations_and_guards(rt: HostRuntime) -> Result<(), Fail> {
    for (relation, holds) in RELATIONS {
        for at in 0..3 {
            let yes = holds[at];
            let value = at + 2;
            for sort in ["idx", "num"] {
                let head = format!(in rt.alloc();
                    "const i: {sort}; query i {relation} 3; query i = {value};"
                )?;
                let (found, _) = answer(rt.alloc(), "solve", head.as_bytes())?;
                assert_eq!(rt; found, if yes { 10 } else { 20 }, "{head}");
                let guard = format!(in rt.alloc();
                    "const i: {sort}; query i {relation} 3 -> false; query {value} = i;"
                )?;
                let (found, _) = answer(rt.alloc(), "solve", guard.as_bytes())?;
                assert_eq!(rt; found, if yes { 20 } else { 10 }, "{guard}");
            }
        }
    }
    Ok(())
}
