//! The reader of problems: one token after another, with the limits counted beside.
//! What bytes spell, and what their fault is, `specs/Spells.antt` says.

ghost use Rattle.std.specs.Prelude.{Ok, Err, Some, ◌≡◌, ◌≢◌, ◌⊎◌, IfOk, IfErr, OnOk};
ghost use Rattle.hp_text.specs.Tokens.{next_from};
ghost use Rattle.hp_text.specs.Placed.{IsPlaced};
ghost use Rattle.hp_text.specs.declared.token.Kind.TheVariants.{End};
ghost use Rattle.hp_read.specs.Causes.{StopsAt};
ghost use Rattle.hp_grammar.specs.Counts.{count, nothing_counted};
ghost use Rattle.hp_grammar.specs.Spells.{Spells, IsFault};
ghost use Rattle.hp_read.specs.Reading.{IsReading};
ghost use Rattle.hp_grammar.specs.Symbols.{symbol_of};
ghost use Rattle.hp_read.specs.Top.{started, top_step};
ghost use Rattle.hp_tree.specs.declared.problem.Problem.{Problem as Spelled};
ghost use Rattle.hp_grammar.specs.declared.fault.ReadErr.TheVariants.{Memory};

use crate::stage::Progress;
use hp_body::Stop;
use hp_grammar::{Counts, ReadErr, symbol_at};
use hp_text::{Cursor, Kind, Token};
use hp_tree::Problem;
use std::alloc::Global;

/// Reads a problem from a text.
///
/// The text is tokens of the grammar with blanks and comments between them. A missing profile line stands for profile 1, each name of a
/// `const` line is a declaration of its own, and declarations and items are in the order of the text. A query is a clause without
/// variables whose `query` is true.
///
/// Of the faults of a text the one with the least offset comes. `Syntax` comes at the first token such that no text of the grammar,
/// whatever its limits, begins with the tokens up to and with it, or at the first byte that begins no token, or at the length where the
/// text ends too early. `LongNumeral` comes at a run of more than 18 digits where the next token would begin, and `Deep` at the 65th
/// open parenthesis, or at the 1,024th sign `+` or `-` between parts of one atom. `Memory` may come at any text.
pub fn read(alloc: Global, bytes: &[u8]) -> Result<Problem, ReadErr>
    ensures found { IfOk result (Spells bytes.now) }
    ensures fault { IfErr result (IsFault bytes.now) }
    ensures only { (p : Spelled) → Spells bytes.now p → (result ≡ Ok p) ⊎ (result ≡ Err Memory) }
{
    read_tokens(alloc, bytes)
}

/// What the reader has come to, and the place behind the last token.
#[derive(Drop)]
pub(crate) struct Reading {
    pub progress: Progress,
    pub counts: Counts,
    pub place: usize,
}

impl Reading {
    /// Nothing is read yet.
    pub(crate) fn new(alloc: Global) -> Reading
        ensures progress { result.progress ≡ started }
        ensures counts { result.counts ≡ nothing_counted }
        ensures place { result.place ≡ 0 }
    {
        Reading {
            progress: Progress::new(alloc),
            counts: Counts::new(),
            place: 0,
        }
    }

    /// The reader goes behind one more token of the bytes.
    pub(crate) fn step(&mut self, alloc: Global, bytes: &[u8], token: Token) -> Result<(), ReadErr>
        requires placed { IsPlaced bytes.now self.old.place token }
        ensures progress { OnOk result (top_step self.old.progress (symbol_of bytes.now token) ≡ Some self.new.progress) }
        ensures counts { OnOk result (count self.old.counts (symbol_of bytes.now token) ≡ Some self.new.counts) }
        ensures place { OnOk result (self.new.place ≡ token.end) }
        ensures fault { IfErr result (StopsAt bytes.now token self.old.progress self.old.counts) }
    {
        let symbol = symbol_at(alloc, bytes, token)?;
        let counts = self.counts.count(&symbol);
        let offset = token.start;
        match self.progress.step(alloc, symbol) {
            Err(Stop::Refused) => Err(ReadErr::Syntax { offset }),
            Err(Stop::Memory) => Err(ReadErr::Memory),
            Ok(()) => match counts {
                None => Err(ReadErr::Deep { offset }),
                Some(counts) => {
                    self.counts = counts;
                    self.place = token.end;
                    Ok(())
                }
            },
        }
    }
}

fn read_tokens(alloc: Global, bytes: &[u8]) -> Result<Problem, ReadErr>
    ensures found { IfOk result (Spells bytes.now) }
    ensures fault { IfErr result (IsFault bytes.now) }
{
    let mut cursor = Cursor::new(bytes);
    let mut reading = Reading::new(alloc);
    loop {
        let token = cursor.next()?;
        if token.kind == Kind::End {
            return finish(bytes, reading, token);
        }
        advance(alloc, bytes, &mut reading, token)?;
    }
}

/// The reader goes behind one more token of the bytes.
fn advance(alloc: Global, bytes: &[u8], reading: &mut Reading, token: Token) -> Result<(), ReadErr>
    requires reading { IsReading bytes.now reading.old.place reading.old.progress reading.old.counts }
    requires next { next_from bytes.now reading.old.place ≡ Ok token }
    requires some { token.kind ≢ End }
    requires placed { IsPlaced bytes.now reading.old.place token }
    ensures read { OnOk result (IsReading bytes.now reading.new.place reading.new.progress reading.new.counts) }
    ensures place { OnOk result (reading.new.place ≡ token.end) }
    ensures fault { IfErr result (IsFault bytes.now) }
{
    reading.step(alloc, bytes, token)
}

/// The problem at the end of the bytes, where it may end there.
fn finish(bytes: &[u8], reading: Reading, token: Token) -> Result<Problem, ReadErr>
    requires reading { IsReading bytes.now reading.place reading.progress reading.counts }
    requires next { next_from bytes.now reading.place ≡ Ok token }
    requires last { token.kind ≡ End }
    ensures found { IfOk result (Spells bytes.now) }
    ensures fault { IfErr result (IsFault bytes.now) }
{
    match reading.progress.end() {
        Some(problem) => Ok(problem),
        None => Err(ReadErr::Syntax {
            offset: bytes.len(),
        }),
    }
}
