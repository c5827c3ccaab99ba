//! The literals of atoms of sort idx.

ghost use Rattle.std.specs.Prelude.{◌<◌, ◌^◌, length};
ghost use Rattle.hp_index.specs.Answers.{AtomPushed};

use crate::compare::form_literals;
use crate::form::index_form;
use hp_lit::{Lit, Refusal};
use hp_names::NameIndex;
use hp_num::List;
use hp_tree::{Atom, signed};

/// Adds the literals of an atom of sort idx behind those that are there: one of them is true where the atom is true if
/// `positive`, and where it is false if not. They compare the forms of the two sides (`index_form`, `form_literals`). The
/// words' names are their places from 0.
///
/// Every bound is at most 10^25 in magnitude. `Wide` comes only where the magnitudes of the numerators of the atom's
/// numbers add up to 2 * 10^24 or more; then nothing is added. At `Memory` the first of two literals may be there, and
/// what was there before still is. It asks for fewer than 2^28 words.
pub fn literals(
    index: &NameIndex,
    positive: bool,
    atom: &Atom,
    lits: &mut List<Lit>,
) -> Result<(), Refusal>
    requires { length index.now < 2 ^ 28 }
    ensures { AtomPushed index.now positive atom.now lits.old lits.new result }
{
    match index_form(index, &atom.left) {
        None => Err(Refusal::Wide),
        Some(left) => match index_form(index, &atom.right) {
            None => Err(Refusal::Wide),
            Some(right) => {
                form_literals(signed(positive, atom.cmp), left, right, lits)?;
                Ok(())
            }
        },
    }
}
