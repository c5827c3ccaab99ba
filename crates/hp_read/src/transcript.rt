//! Reading a text and printing its problem at the same time.
//! Clauses are printed and given up once four are whole, so the memory that is taken beside the text is that of the declarations and
//! of a few clauses.

ghost use Rattle.std.specs.Prelude.{Ok, Err, ◌≡◌, ◌≢◌, ◌<◌, ◌⊎◌, IfOk, IfErr, OnOk, length};
ghost use Rattle.hp_ast.specs.Printing.{problem_text};
ghost use Rattle.hp_tree.specs.declared.problem.Problem.{Problem as Spelled};
ghost use Rattle.hp_text.specs.Tokens.{next_from};
ghost use Rattle.hp_text.specs.Placed.{IsPlaced};
ghost use Rattle.hp_text.specs.declared.token.Kind.TheVariants.{End};
ghost use Rattle.hp_read.specs.Printed.{SpellsAsPrinted, IsPrinting, Follows, GivesUp};
ghost use Rattle.hp_grammar.specs.Spells.{Spells, IsFault};
ghost use Rattle.hp_grammar.specs.declared.fault.ReadErr.TheVariants.{Memory};

use crate::reader::Reading;
use crate::stage::Stage;
use hp_ast::{put_clauses, put_heading};
use hp_grammar::ReadErr;
use hp_num::{List, Text};
use hp_text::{Cursor, Kind, Token};
use hp_tree::Problem;
use std::alloc::{AllocError, Global};

/// The printed text of the problem that the bytes spell: the line of the profile, then one line for each declaration and then for each
/// clause, in their order. Where they spell none, the fault is that of `read`; `Memory` may come at any bytes.
///
/// Beside the text, which may be longer than the bytes, the declarations and at most four clauses stand in memory.
pub fn transcribe(alloc: Global, bytes: &[u8]) -> Result<Text, ReadErr>
    ensures found { IfOk result (SpellsAsPrinted bytes.now) }
    ensures fault { IfErr result (IsFault bytes.now) }
    ensures only { (p : Spelled) → Spells bytes.now p → (result ≡ Ok (problem_text p)) ⊎ (result ≡ Err Memory) }
{
    print_tokens(alloc, bytes)
}

fn print_tokens(alloc: Global, bytes: &[u8]) -> Result<Text, ReadErr>
    ensures found { IfOk result (SpellsAsPrinted bytes.now) }
    ensures fault { IfErr result (IsFault bytes.now) }
{
    let mut cursor = Cursor::new(bytes);
    let mut reading = Reading::new(alloc);
    let mut out = Text::with_capacity(alloc, bytes.len())?;
    loop {
        let token = cursor.next()?;
        if token.kind == Kind::End {
            return finish(bytes, reading, out, token);
        }
        go_on(alloc, bytes, &mut reading, &mut out, token)?;
    }
}

/// The reader goes behind one more token of the bytes, and gives up the clauses before the last one where four are whole.
fn go_on(
    alloc: Global,
    bytes: &[u8],
    reading: &mut Reading,
    out: &mut Text,
    token: Token,
) -> Result<(), ReadErr>
    requires reading { IsPrinting bytes.now out.old reading.old.place reading.old.progress reading.old.counts }
    requires next { next_from bytes.now reading.old.place ≡ Ok token }
    requires some { token.kind ≢ End }
    requires placed { IsPlaced bytes.now reading.old.place token }
    ensures read { OnOk result (IsPrinting bytes.now out.new reading.new.place reading.new.progress reading.new.counts) }
    ensures place { OnOk result (reading.new.place ≡ token.end) }
    ensures fault { IfErr result (IsFault bytes.now) }
{
    reading.step(alloc, bytes, token)?;
    if matches!(reading.progress.stage, Stage::Whole) {
        give_up(alloc, &mut reading.progress.made, out)?;
    }
    Ok(())
}

/// How many clauses stand in memory before those in front of the last one are given up.
const ROOM: usize = 4;

/// Puts all clauses but the last one at the end of the text, and drops them, where there are at least four.
fn give_up(alloc: Global, made: &mut Problem, out: &mut Text) -> Result<(), AllocError>
    ensures given { OnOk result (GivesUp out.old out.new made.old made.new) }
    ensures few { OnOk result (length made.new.clauses < 4) }
{
    if made.clauses.len() < ROOM {
        return Ok(());
    }
    match made.clauses.pop() {
        None => Ok(()),
        Some(last) => {
            put_lines(out, made)?;
            made.clauses = List::new(alloc);
            made.clauses.push(last)
        }
    }
}

/// Puts the lines of the clauses at the end of the text, where they have to follow those before them, or the declarations.
fn put_lines(out: &mut Text, made: &Problem) -> Result<(), AllocError>
    ensures { OnOk result (Follows out.old out.new made.now) }
{
    if out.len() == 0 {
        put_heading(out, made)?;
    }
    put_clauses(out, made.clauses.as_slice())
}

/// The whole text at the end of the bytes, where they may end there.
fn finish(bytes: &[u8], reading: Reading, mut out: Text, token: Token) -> Result<Text, ReadErr>
    requires reading { IsPrinting bytes.now out reading.place reading.progress reading.counts }
    requires next { next_from bytes.now reading.place ≡ Ok token }
    requires last { token.kind ≡ End }
    ensures found { IfOk result (SpellsAsPrinted bytes.now) }
    ensures fault { IfErr result (IsFault bytes.now) }
{
    match reading.progress.end() {
        None => Err(ReadErr::Syntax {
            offset: bytes.len(),
        }),
        Some(problem) => {
            put_lines(&mut out, &problem)?;
            Ok(out)
        }
    }
}
