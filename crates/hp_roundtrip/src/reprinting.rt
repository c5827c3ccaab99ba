//! Reading a text and printing its problem again.
//! What the printed text is, `hp_ast` says, and that it spells the same problem is the law of `laws.rt`.

ghost use Rattle.std.specs.Prelude.{Ok, Err, ◌≡◌, ◌⊎◌, IfOk, IfErr};
ghost use Rattle.hp_ast.specs.Printing.{problem_text};
ghost use Rattle.hp_tree.specs.declared.problem.Problem.{Problem as Spelled};
ghost use Rattle.hp_grammar.specs.Spells.{Spells, IsFault};
ghost use Rattle.hp_grammar.specs.declared.fault.ReadErr.TheVariants.{Memory};
ghost use Rattle.hp_roundtrip.specs.Law.{Reprints};

use hp_grammar::ReadErr;
use hp_num::Text;
use hp_read::transcribe;
use std::alloc::Global;

/// The one printed text of the problem that the bytes spell: it spells the same problem.
///
/// The bytes need not be UTF-8, and the text is whole: the line of the profile, then one line for each declaration and
/// then for each clause, in their order. An `Err` is the first fault of the bytes, with its offset in bytes from 0, where
/// they spell no problem; `Memory` may come at any bytes, from reading or from printing.
pub fn reprint(alloc: Global, bytes: &[u8]) -> Result<Text, ReadErr>
    ensures found { IfOk result (Reprints bytes.now) }
    ensures fault { IfErr result (IsFault bytes.now) }
    ensures only { (p : Spelled) → Spells bytes.now p → (result ≡ Ok (problem_text p)) ⊎ (result ≡ Err Memory) }
{
    transcribe(alloc, bytes)
}
