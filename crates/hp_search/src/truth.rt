//! Whether lines are true at values, and the choice of a line that is false.
ghost use Rattle.std.specs.Prelude.{◌≡◌, ◌↔◌, ◌+◌, ◌≤◌, IfOk, IfSome, IsSome, Ok, length, true, false};
ghost use Rattle.std.specs.List.{All};
ghost use Rattle.hp_math.specs.Rational.{whole};
ghost use Rattle.hp_tree.specs.Limits.{most_lines};
ghost use Rattle.hp_lit.specs.Truth.{IdxIsTrue, IsTrueAt, LineIsTrue, PtrIsTrue, optional_value};
ghost use Rattle.hp_diff.specs.Rows.{IsSmallWhole};
ghost use Rattle.hp_search.specs.Lines.{AreReadable, HasSmallSides, IsFalseLine, IsReadable, IsSmallIndex, IsWideChoice, Judges, JudgesLine, JudgesLit, Keeps};

use crate::plan::Plan;
use hp_descent::holds;
use hp_lit::{Choice, IdxLit, Line, Lit, Name, PtrLit, Valuation};
use hp_num::{Frac, Wide};
use std::alloc::AllocError;
use std::cmp::Ordering;

/// What values make of all lines: each is true; this one is false; or the sum of a literal is too wide.
#[derive(Clone, Copy)]
pub enum Verdict {
    AllTrue,
    False(u32),
    Wide { choice: Choice, wide: Wide },
}

/// What values make of a literal.
#[derive(Clone, Copy)]
enum LitTruth {
    True,
    False,
    Wide(Wide),
}

/// What values make of a line. The literal whose sum is too wide counts from 1.
#[derive(Clone, Copy)]
enum LineTruth {
    True,
    False,
    Wide { lit: u32, wide: Wide },
}

/// A line that some values leave false, with the number of its literals.
#[derive(Clone, Copy)]
struct Candidate {
    line: u32,
    count: usize,
}

/// A literal whose sum is too wide.
#[derive(Clone, Copy)]
struct WideSum {
    choice: Choice,
    wide: Wide,
}

/// The value of an index name, 0 for none.
fn index_value(v: &Valuation, name: Option<Name>) -> i128
    requires { IsSmallWhole (optional_value v.now.values name) }
    ensures value { optional_value v.now.values name ≡ whole result }
    ensures small { IsSmallIndex result }
{
    match name {
        None => 0,
        Some(name) => {
            let at = name.0 as usize;
            if at < v.values.len() {
                v.values.get(at).num()
            } else {
                0
            }
        }
    }
}

/// Whether two values keep a row.
fn keeps(row: IdxLit, left: i128, right: i128) -> bool
    requires left { IsSmallIndex left }
    requires right { IsSmallIndex right }
    ensures yes { result ≡ true → Keeps row left right }
    ensures no { result ≡ false → Keeps row left right → ⊥ }
{
    let difference = left - right;
    difference <= row.bound && (!row.exact || row.bound <= difference)
}

/// Whether a row is true.
fn row_holds(v: &Valuation, row: IdxLit) -> bool
    requires values { HasSmallSides v.now.values row }
    ensures yes { result ≡ true → IdxIsTrue v.now.values row }
    ensures no { result ≡ false → IdxIsTrue v.now.values row → ⊥ }
{
    let left = index_value(v, row.left);
    let right = index_value(v, row.right);
    keeps(row, left, right)
}

/// The value of a pointer name, 0 for null.
fn pointer_value(v: &Valuation, name: Option<Name>) -> Frac
    ensures { result ≡ optional_value v.now.values name }
{
    let null = Frac::new(0, 1);
    match name {
        None => null,
        Some(name) => match v.values.as_slice().get(name.0 as usize) {
            Some(value) => *value,
            None => null,
        },
    }
}

/// Whether two values are one.
fn are_same(left: Frac, right: Frac) -> bool
    ensures { result ≡ true ↔ left ≡ right }
{
    match Frac::cmp(left, right) {
        Ordering::Equal => true,
        Ordering::Less | Ordering::Greater => false,
    }
}

/// Whether a pair of pointers is as its literal says.
fn pair_holds(v: &Valuation, pair: PtrLit) -> bool
    ensures yes { result ≡ true → PtrIsTrue v.now.values pair }
    ensures no { result ≡ false → PtrIsTrue v.now.values pair → ⊥ }
{
    let left = pointer_value(v, pair.left);
    let right = pointer_value(v, pair.right);
    are_same(left, right) == pair.same
}

/// Whether a literal is true.
fn lit_truth(v: &Valuation, lit: &Lit) -> LitTruth
    requires { IsReadable v.now.values lit.now }
    ensures { JudgesLit v.now.values lit.now result }
{
    match lit {
        Lit::Idx(row) => {
            if row_holds(v, *row) {
                LitTruth::True
            } else {
                LitTruth::False
            }
        }
        Lit::Num(num) => match holds(v, num) {
            Ok(true) => LitTruth::True,
            Ok(false) => LitTruth::False,
            Err(wide) => LitTruth::Wide(wide),
        },
        Lit::Ptr(pair) => {
            if pair_holds(v, *pair) {
                LitTruth::True
            } else {
                LitTruth::False
            }
        }
    }
}

/// The number, counted from 1, of the literal at this index of a line. `Err` where it has more than 32 bits.
fn number_of(at: usize) -> Result<u32, AllocError>
    ensures { IfOk result (λ number. number ≡ at + 1) }
{
    if at < 4_294_967_295 {
        Ok(at as u32 + 1)
    } else {
        Err(AllocError)
    }
}

/// Whether one of the literals of a line is true. A sum that is too wide is told only where none is true. `Err` where the
/// number of its literal has more than 32 bits.
fn line_truth(v: &Valuation, line: &Line) -> Result<LineTruth, AllocError>
    requires { All (IsReadable v.now.values) line.now.lits }
    ensures { IfOk result (JudgesLine v.now.values line.now.lits) }
{
    let mut truth = LineTruth::False;
    for (at, lit) in line.lits.as_slice().iter().enumerate() {
        match lit_truth(v, lit) {
            LitTruth::True => return Ok(LineTruth::True),
            LitTruth::False => {}
            LitTruth::Wide(wide) => {
                let lit = number_of(at)?;
                truth = LineTruth::Wide { lit, wide };
            }
        }
    }
    Ok(truth)
}

/// Whether a line of this number, counted from 1, is there and false.
fn is_false(lines: &[Line], v: &Valuation, number: u32) -> Result<bool, AllocError>
    requires { All (AreReadable v.now.values) lines.now }
    ensures { result ≡ Ok true → IsFalseLine lines.now v.now.values number }
{
    let number = number as usize;
    if number == 0 || lines.len() < number {
        return Ok(false);
    }
    match line_truth(v, &lines[number - 1])? {
        LineTruth::False => Ok(true),
        LineTruth::True => Ok(false),
        LineTruth::Wide { .. } => Ok(false),
    }
}

/// The sum of the literal of this choice, where it is too wide.
pub fn wide_at(lines: &[Line], v: &Valuation, choice: Choice) -> Option<Wide>
    requires { All (AreReadable v.now.values) lines.now }
    ensures { IfSome result (IsWideChoice lines.now v.now.values choice) }
{
    let line = choice.line as usize;
    let lit = choice.lit as usize;
    if line == 0 || lines.len() < line || lit == 0 {
        return None;
    }
    let lits = &lines[line - 1].lits;
    if lits.len() < lit {
        return None;
    }
    match lit_truth(v, lits.get(lit - 1)) {
        LitTruth::Wide(wide) => Some(wide),
        LitTruth::True | LitTruth::False => None,
    }
}

/// Whether a line with so many cases has fewer than the best so far.
fn is_shorter(count: usize, best: Option<Candidate>) -> bool
    ensures { result ≡ false → IsSome best }
{
    match best {
        None => true,
        Some(best) => count < best.count,
    }
}

/// How many cases the line at this index has left: by the counts, and where these don't have it, all of its literals.
fn cases_of(counts: &[usize], at: usize, line: &Line) -> usize {
    match counts.get(at) {
        Some(count) => *count,
        None => line.lits.len(),
    }
}

/// The first of the lines with the fewest cases left that the values leave false. A sum that is too wide is told only where
/// no line is false.
fn shortest_false(lines: &[Line], v: &Valuation, counts: &[usize]) -> Result<Verdict, AllocError>
    requires readable { All (AreReadable v.now.values) lines.now }
    requires lines { length lines.now ≤ most_lines }
    ensures { IfOk result (Judges lines.now v.now.values) }
{
    let mut best: Option<Candidate> = None;
    let mut wide_sum: Option<WideSum> = None;
    for (at, line) in lines.iter().enumerate() {
        let count = cases_of(counts, at, line);
        if is_shorter(count, best) {
            let number = at as u32 + 1;
            match line_truth(v, line)? {
                LineTruth::True => {}
                LineTruth::False => {
                    best = Some(Candidate {
                        line: number,
                        count,
                    });
                }
                LineTruth::Wide { lit, wide } => {
                    let choice = Choice { line: number, lit };
                    wide_sum = Some(WideSum { choice, wide });
                }
            }
        }
    }
    Ok(verdict_of(best, wide_sum))
}

/// The verdict of a line that is false and of a sum that is too wide, the first of which counts.
fn verdict_of(best: Option<Candidate>, wide_sum: Option<WideSum>) -> Verdict
    ensures { result ≡ Rattle.hp_search.specs.Lines.verdict_of best wide_sum }
{
    match best {
        Some(best) => Verdict::False(best.line),
        None => match wide_sum {
            Some(sum) => Verdict::Wide {
                choice: sum.choice,
                wide: sum.wide,
            },
            None => Verdict::AllTrue,
        },
    }
}

/// A line that the values leave false: one of the suspects or of the plan where there is such, and else one of those with
/// the fewest cases left. Where no line is false, a literal whose sum is too wide, or that every line is true. `Err` where the number of such a literal
/// in its line has more than 32 bits.
pub fn first_false(
    lines: &[Line],
    v: &Valuation,
    suspects: &[u32],
    plan: &Plan,
) -> Result<Verdict, AllocError>
    requires readable { All (AreReadable v.now.values) lines.now }
    requires lines { length lines.now ≤ most_lines }
    ensures { IfOk result (Judges lines.now v.now.values) }
{
    if let Some(number) = next_false(lines, v, suspects)? {
        return Ok(Verdict::False(number));
    }
    if let Some(number) = next_false(lines, v, plan.lines.as_slice())? {
        return Ok(Verdict::False(number));
    }
    shortest_false(lines, v, plan.counts.as_slice())
}

/// The first of these lines that the values leave false.
pub fn next_false(lines: &[Line], v: &Valuation, numbers: &[u32]) -> Result<Option<u32>, AllocError>
    requires { All (AreReadable v.now.values) lines.now }
    ensures { IfOk result (λ found. IfSome found (IsFalseLine lines.now v.now.values)) }
{
    for number in numbers {
        if is_false(lines, v, *number)? {
            return Ok(Some(*number));
        }
    }
    Ok(None)
}

/// Whether the values leave none of the lines of these choices false.
pub fn are_true(lines: &[Line], v: &Valuation, choices: &[Choice]) -> Result<bool, AllocError>
    requires { All (AreReadable v.now.values) lines.now }
{
    for choice in choices {
        if is_false(lines, v, choice.line)? {
            return Ok(false);
        }
    }
    Ok(true)
}

/// Whether a literal is true, and its sum isn't too wide.
pub fn is_true(v: &Valuation, lit: &Lit) -> bool
    requires { IsReadable v.now.values lit.now }
    ensures { result ≡ true → IsTrueAt v.now.values lit.now }
{
    match lit_truth(v, lit) {
        LitTruth::True => true,
        LitTruth::False => false,
        LitTruth::Wide(_) => false,
    }
}
