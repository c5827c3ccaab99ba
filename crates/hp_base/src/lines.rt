//! The literals of atoms of all sorts, and lines that are added.

ghost use Rattle.std.specs.Prelude.{◌≡◌, ◌<◌, ◌^◌, length};
ghost use Rattle.hp_tree.specs.declared.problem.Sort.TheVariants.{Idx};
ghost use Rattle.hp_terms.specs.Weight.{IsLightAtom};
ghost use Rattle.hp_linear.specs.Answers.{Pushed};
ghost use Rattle.hp_base.specs.Making.{Begins, Makes};
ghost use Rattle.hp_base.specs.Lines.{add_line, literals_as};

use hp_defs::Ground;
use hp_index::pointer_literals;
use hp_lit::{GroundErr, Line, Lit, Refusal, many_lines};
use hp_names::NameIndex;
use hp_num::List;
use hp_tree::{Atom, MOST_LINES, Sort};
use std::alloc::Global;

/// Adds the literals of an atom of a sort behind those that are there: one of them is true where the atom is true if
/// `positive`, and where it is false if not. Num atoms compare linear forms, idx atoms names plus whole numbers, and ptr
/// atoms names. The words' names are their places from 0; a word that is none of these counts as 0 or null.
///
/// It asks for fewer than 2^28 words, and for numbers of an idx atom whose numerators' magnitudes add up to less than
/// 2 * 10^24. `Wide` comes only for a num atom, at the first number of the computation with a magnitude above 2^127 - 1;
/// then nothing is added. At `Memory` the first of two literals may be there, and what was there before still is.
pub fn literals_as(
    alloc: Global,
    index: &NameIndex,
    sort: Sort,
    positive: bool,
    atom: &Atom,
    lits: &mut List<Lit>,
) -> Result<(), Refusal>
    requires few { length index.now < 2 ^ 28 }
    requires light { sort ≡ Idx → IsLightAtom atom.now }
    ensures { Pushed (literals_as sort index.now positive atom.now) lits.old lits.new result }
{
    match sort {
        Sort::Num => hp_linear::literals(alloc, index, positive, atom, lits),
        Sort::Idx => hp_index::literals(index, positive, atom, lits),
        Sort::Ptr => {
            pointer_literals(index, positive, atom, lits)?;
            Ok(())
        }
    }
}

/// Adds a line behind those that are there: at most 50,000, which is the limit that is passed at one more. At an error what
/// was there before still is.
#[tactic(auto, using(crate::proofs::Making::begins_same, crate::proofs::Making::begins_same_lines, crate::proofs::Making::begins_line))]
pub fn add_line(g: &mut Ground, line: Line) -> Result<(), GroundErr>
    ensures made { Makes (add_line line) g.old g.new result }
    ensures kept { Begins g.old g.new }
{
    if g.lines.len() < MOST_LINES {
        g.lines.push(line)?;
        Ok(())
    } else {
        Err(GroundErr::Limit(many_lines()))
    }
}
