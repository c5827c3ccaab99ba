//! The exit status of the program, for any source and sink.

ghost use Rattle.std.specs.Prelude.{◌≡◌, ◌≤◌, ◌⊎◌, IfOk, IfSome, IsErr, IsErrOf, map, string_bytes};
ghost use Rattle.std.specs.Io.KnownBytes.{Keeps};
ghost use Rattle.hp_tree.specs.declared.problem.Problem.{Problem};
ghost use Rattle.hp_io.specs.Causes.{Rose};
ghost use Rattle.hp_cli.specs.Answer.{Fits, IsSettledCode, IsSolving, Told};
ghost use Rattle.hp_cli.specs.Transfer.{HasEnded, TakesFew};
ghost use Rattle.hp_cli.specs.Verdicts.{InScope};
ghost use Rattle.hp_cli.specs.Words.{Asks, IsUsage};
ghost use Rattle.hpilot.specs.Exit.{IsExit};

use crate::words::WordsErr;
use hp_cli::{Task, run};
use hp_io::{Sink, Source};
use std::alloc::Global;

/// The exit status for the words of the command line: that of their run, with all that `run` says of it. Where the words
/// can't be had, nothing is read or written, and the status is 12 for want of memory, or 15 where the system refuses them
/// or one of them isn't UTF-8.
pub fn exit<S: Source, K: Sink>(
    alloc: Global,
    words: Result<Vec<String>, WordsErr>,
    source: &mut S,
    sink: &mut K,
) -> u8
    // Words that can't be had.
    ensures memory { IsErrOf words WordsErr.Memory → result ≡ 12 }
    ensures refused { IsErrOf words WordsErr.Refused → result ≡ 15 }
    ensures nothing_read { IsErr words → Keeps (S.left source.old) (S.left source.new) }
    ensures nothing_written { IsErr words → Keeps (K.written sink.old) (K.written sink.new) }
    // A run for the others.
    ensures statuses { IsExit result }
    ensures usage { IfOk words (λ words. result ≡ 2 → IsUsage (map string_bytes words.items)) }
    ensures usage_first { IfOk words (λ words. IsUsage (map string_bytes words.items) → (result ≡ 2) ⊎ ((result ≡ 4) ⊎ (result ≡ 12))) }
    ensures unread { IfOk words (λ words. IsUsage (map string_bytes words.items) → Keeps (S.left source.old) (S.left source.new)) }
    ensures read_fault { result ≡ 3 → Rose (S.faults source.old) (S.faults source.new) }
    ensures write_fault { result ≡ 4 → Rose (K.faults sink.old) (K.faults sink.new) }
    ensures source_count { S.faults source.old ≤ S.faults source.new }
    ensures sink_count { K.faults sink.old ≤ K.faults sink.new }
    ensures content { IfOk words (λ words. Told (S.left source.old) (K.written sink.old) (K.written sink.new)
        (λ bytes out. Fits (map string_bytes words.items) bytes out result)) }
    ensures settled { IfOk words (λ words. IsSolving (map string_bytes words.items) → IfSome (S.left source.old)
        (λ bytes. (p : Problem) → InScope bytes p → IsSettledCode result)) }
    ensures few { TakesFew (S.left source.old) (S.left source.new) }
    ensures end { IfOk words (λ words. (task : Task) → Asks (map string_bytes words.items) task → (result ≡ 3 → ⊥) → (result ≡ 12 → ⊥)
        → HasEnded (S.left source.old) (S.left source.new)) }
{
    match words {
        Ok(words) => run(alloc, words.as_slice(), source, sink),
        Err(WordsErr::Memory) => 12,
        Err(WordsErr::Refused) => 15,
    }
}
