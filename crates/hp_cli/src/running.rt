//! The run of a command: read all, decide, write all. Only here are sources and sinks in play.

ghost use Rattle.std.specs.Prelude.{◌≡◌, ◌<◌, ◌≤◌, ◌⊎◌, IfSome, length, List, ℕ, map, string_bytes};
ghost use Rattle.std.specs.Io.KnownBytes.{Keeps};
ghost use Rattle.hp_io.specs.Causes.{Rose};
ghost use Rattle.hp_cli.specs.declared.answer.Status.{Status};
ghost use Rattle.hp_tree.specs.declared.problem.Problem.{Problem};
ghost use Rattle.hp_cli.specs.declared.words.Task.{Task};
ghost use Rattle.hp_cli.specs.Answer.{Answers, code, Fits, IsSettledCode, IsSolving, IsWhole, Stands, Told, Wrote};
ghost use Rattle.hp_tree.specs.Limits.{most_bytes};
ghost use Rattle.hp_cli.specs.Transfer.{HasEnded, TakesFew};
ghost use Rattle.hp_cli.specs.Verdicts.{InScope};
ghost use Rattle.hp_cli.specs.Words.{Asks, IsTask, IsUsage};

use crate::answer::Status;
use crate::deciding::{decide, too_long};
use crate::transfer::{Input, read_all, write_all};
use crate::words::Task;
use hp_io::{Sink, Source, WriteErr};
use std::alloc::Global;

const USAGE: &[u8] =
    b"usage: hpilot solve [--nodes N], check, classify, instances, print, bench A B\n";

/// Writes the whole text of a status, which is then answered.
fn finish<K: Sink>(sink: &mut K, text: &[u8], status: Status) -> Status
    requires { IsWhole status }
    ensures status { (result ≡ status) ⊎ ((result ≡ Status.WriteFault) ⊎ (result ≡ Status.Memory)) }
    ensures cause { result ≡ Status.WriteFault → Rose (K.faults sink.old) (K.faults sink.new) }
    ensures later { K.faults sink.old ≤ K.faults sink.new }
    ensures content { (words : List (List ℕ)) (bytes : List ℕ) → Answers words bytes text.now status
        → Wrote (K.written sink.old) (K.written sink.new) (λ out. Stands words bytes out result) }
{
    match write_all(sink, text) {
        Ok(()) => status,
        Err(WriteErr::Failed) => Status::WriteFault,
        Err(WriteErr::Memory) => Status::Memory,
    }
}

/// Writes the line that says how the program is used.
fn usage<K: Sink>(sink: &mut K) -> Status
    ensures status { (result ≡ Status.Usage) ⊎ ((result ≡ Status.WriteFault) ⊎ (result ≡ Status.Memory)) }
    ensures cause { result ≡ Status.WriteFault → Rose (K.faults sink.old) (K.faults sink.new) }
    ensures later { K.faults sink.old ≤ K.faults sink.new }
    ensures content { (words : List (List ℕ)) (bytes : List ℕ) → IsUsage words
        → Wrote (K.written sink.old) (K.written sink.new) (λ out. Stands words bytes out result) }
{
    finish(sink, USAGE, Status::Usage)
}

/// Writes the answer for an input that is longer than a problem may be.
fn refuse_long<K: Sink>(alloc: Global, task: Task, sink: &mut K) -> Status
    ensures status { (result ≡ Status.Limit) ⊎ ((result ≡ Status.WriteFault) ⊎ (result ≡ Status.Memory)) }
    ensures cause { result ≡ Status.WriteFault → Rose (K.faults sink.old) (K.faults sink.new) }
    ensures later { K.faults sink.old ≤ K.faults sink.new }
    ensures content { (words : List (List ℕ)) (bytes : List ℕ) → Asks words task → most_bytes < length bytes
        → Wrote (K.written sink.old) (K.written sink.new) (λ out. Stands words bytes out result) }
{
    match too_long(alloc, task) {
        Err(_) => Status::Memory,
        Ok(answer) => finish(sink, answer.text.as_slice(), answer.status),
    }
}

/// Writes the answer for an input.
fn answer<K: Sink>(alloc: Global, bytes: &[u8], task: Task, sink: &mut K) -> Status
    requires size { length bytes.now ≤ most_bytes }
    requires task { IsTask task }
    ensures not_usage { result ≡ Status.Usage → ⊥ }
    ensures not_read { result ≡ Status.ReadFault → ⊥ }
    ensures cause { result ≡ Status.WriteFault → Rose (K.faults sink.old) (K.faults sink.new) }
    ensures later { K.faults sink.old ≤ K.faults sink.new }
    ensures content { (words : List (List ℕ)) (input : List ℕ) → Asks words task → input ≡ bytes.now
        → Wrote (K.written sink.old) (K.written sink.new) (λ out. Stands words input out result) }
{
    match decide(alloc, bytes, task) {
        Err(_) => Status::Memory,
        Ok(answer) => finish(sink, answer.text.as_slice(), answer.status),
    }
}

/// Reads the input of a task and writes its answer.
fn perform<S: Source, K: Sink>(alloc: Global, task: Task, source: &mut S, sink: &mut K) -> Status
    requires { IsTask task }
    ensures not_usage { result ≡ Status.Usage → ⊥ }
    ensures read_fault { result ≡ Status.ReadFault → Rose (S.faults source.old) (S.faults source.new) }
    ensures write_fault { result ≡ Status.WriteFault → Rose (K.faults sink.old) (K.faults sink.new) }
    ensures source_count { S.faults source.old ≤ S.faults source.new }
    ensures sink_count { K.faults sink.old ≤ K.faults sink.new }
    ensures content { (words : List (List ℕ)) → Asks words task
        → Told (S.left source.old) (K.written sink.old) (K.written sink.new) (λ bytes out. Stands words bytes out result) }
    ensures few { TakesFew (S.left source.old) (S.left source.new) }
    ensures end { (result ≡ Status.ReadFault → ⊥) → (result ≡ Status.Memory → ⊥) → HasEnded (S.left source.old) (S.left source.new) }
{
    match read_all(alloc, source) {
        Input::Failed => Status::ReadFault,
        Input::Memory => Status::Memory,
        Input::Long => refuse_long(alloc, task, sink),
        Input::All(bytes) => answer(alloc, &bytes, task, sink),
    }
}

/// Does all that the program does.
fn outcome<S: Source, K: Sink>(
    alloc: Global,
    words: &[String],
    source: &mut S,
    sink: &mut K,
) -> Status
    ensures usage { result ≡ Status.Usage → IsUsage (map string_bytes words.now) }
    ensures usage_first { IsUsage (map string_bytes words.now) → (result ≡ Status.Usage) ⊎ ((result ≡ Status.WriteFault) ⊎ (result ≡ Status.Memory)) }
    ensures unread { IsUsage (map string_bytes words.now) → Keeps (S.left source.old) (S.left source.new) }
    ensures read_fault { result ≡ Status.ReadFault → Rose (S.faults source.old) (S.faults source.new) }
    ensures write_fault { result ≡ Status.WriteFault → Rose (K.faults sink.old) (K.faults sink.new) }
    ensures source_count { S.faults source.old ≤ S.faults source.new }
    ensures sink_count { K.faults sink.old ≤ K.faults sink.new }
    ensures content { Told (S.left source.old) (K.written sink.old) (K.written sink.new)
        (λ bytes out. Stands (map string_bytes words.now) bytes out result) }
    ensures few { TakesFew (S.left source.old) (S.left source.new) }
    ensures end { (task : Task) → Asks (map string_bytes words.now) task → (result ≡ Status.ReadFault → ⊥) → (result ≡ Status.Memory → ⊥)
        → HasEnded (S.left source.old) (S.left source.new) }
{
    match Task::from_words(words) {
        None => usage(sink),
        Some(task) => perform(alloc, task, source, sink),
    }
}

/// Does what the words ask for and answers the exit status.
///
/// - 0: the text is the printed form of the problem that the input spells; `print` asks for no more than that.
/// - 2: the words are none of `solve`, `solve --nodes N` and `print`. Nothing is read.
/// - 3: a read failed. Nothing is written.
/// - 5: the input spells no problem. The line says `syntax`, `long-numeral` or `deep` and the offset of the fault.
/// - 6: an item breaks a rule on names and sorts. The line names the first such item and the first rule that it breaks.
/// - 7: a clause breaks a rule of the profile. The line names the clause, counted from 1 over the clauses, and the rule: the
///   first clause that breaks one of rules 1 to 7 by itself, and the first of these rules; or, where none does, the later one of the first
///   two cases of a function whose guards some values meet (8), or of the clauses that give a case bounds that some values put
///   out of order (9), with the number of the other clause and a point at which it is so.
/// - 8: a limit is passed: 1,048,576 bytes, of which one more is then read and the rest left; 2,000 clauses; 6 variables of a
///   clause; 4 arguments of a function; 4,000 names; 50,000 lines; 2^127 - 1 for a number of the normal form of an atom over
///   fractions. The line names the limit, and for the last one the first item with such a number. Items are counted from 1: the declared
///   constants and functions, and then the clauses.
/// - 13: a clause is of a form that isn't decided so far: it has a variable of sort idx or ptr, an application with a variable
///   in it has one of these sorts in its signature, or two such applications of the text have different levels.
/// - 9: a number passes 2^127 - 1 on the way to a verdict. The line shows an honest path of the search, and which operation
///   on which numbers passes over its literals; or two clauses whose cases are tested with each other, and which operation
///   passes over their rows, where no cases before them break a rule.
/// - 10: the text is `satisfiable` and a structure that satisfies the problem.
/// - 20: no structure satisfies the problem, and the text is a refutation.
/// - 11: the search came to its limit of splits and leaves, and the text is its honest tree.
/// - 4: a write failed. A part from the front of the text is written.
/// - 12: memory was wanting. Nothing is written, or a part from the front where the sink wanted it.
///
/// Of several refusals the first comes in this order: usage; a read fault, and the limit of bytes; spelling; names and
/// sorts; the limits of clauses, variables and arguments; forms that aren't decided so far; the limits of names, lines and normal
/// forms, as far as the clauses pass them; the first clause that breaks a rule by itself; the first cases that break one with each
/// other, with status 7 or 9; the same limits of instances. Status 9 of a path or 11 comes last, whichever is first. Writing begins
/// when the whole answer is there.
pub fn run<S: Source, K: Sink>(alloc: Global, words: &[String], source: &mut S, sink: &mut K) -> u8
    // No other status is answered.
    ensures statuses { (s : Status) × (result ≡ code s) }
    // Usage exactly where the words are no command, and then nothing is read; only the write of its line may fail.
    ensures usage { result ≡ 2 → IsUsage (map string_bytes words.now) }
    ensures usage_first { IsUsage (map string_bytes words.now) → (result ≡ 2) ⊎ ((result ≡ 4) ⊎ (result ≡ 12)) }
    ensures unread { IsUsage (map string_bytes words.now) → Keeps (S.left source.old) (S.left source.new) }
    // A fault only where the count of faults rose.
    ensures read_fault { result ≡ 3 → Rose (S.faults source.old) (S.faults source.new) }
    ensures write_fault { result ≡ 4 → Rose (K.faults sink.old) (K.faults sink.new) }
    ensures source_count { S.faults source.old ≤ S.faults source.new }
    ensures sink_count { K.faults sink.old ≤ K.faults sink.new }
    // What was written, as far as the sink tells it, for an input that is the source's where this tells it.
    ensures content { Told (S.left source.old) (K.written sink.old) (K.written sink.new)
        (λ bytes out. Fits (map string_bytes words.now) bytes out result) }
    // A text in scope gets a verdict, unless a stream fails or memory is wanting.
    ensures settled { IsSolving (map string_bytes words.now) → IfSome (S.left source.old)
        (λ bytes. (p : Problem) → InScope bytes p → IsSettledCode result) }
    // Never more is read than one byte past the limit, and for a task no less than that, or all, unless a read fails or
    // memory is wanting.
    ensures few { TakesFew (S.left source.old) (S.left source.new) }
    ensures end { (task : Task) → Asks (map string_bytes words.now) task → (result ≡ 3 → ⊥) → (result ≡ 12 → ⊥)
        → HasEnded (S.left source.old) (S.left source.new) }
{
    outcome(alloc, words, source, sink).code()
}
