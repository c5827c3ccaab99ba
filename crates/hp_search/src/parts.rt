//! Some of the choices of a path or of lines of one literal, by the numbers that their literals have.
ghost use Rattle.std.specs.Prelude.{◌≡◌, ◌≤◌, IfOk, length};
ghost use Rattle.hp_search.specs.Search.{IsPartOf};

use hp_lit::Choice;
use hp_num::List;
use std::alloc::{AllocError, Global};

/// Whether the next of the places is this one.
fn is_next(places: &[u32], next: usize, place: usize) -> bool {
    next < places.len() && places[next] as usize == place
}

/// The choices of a path at these places, which count from 1 and rise.
pub fn part_at(alloc: Global, path: &[Choice], places: &[u32]) -> Result<List<Choice>, AllocError>
    ensures { IfOk result (λ part. IsPartOf part path.now) }
{
    let mut part = List::new(alloc);
    let mut next = 0;
    for (at, choice) in path.iter().enumerate() {
        if is_next(places, next, at + 1) {
            part.push(*choice)?;
            next = next.saturating_add(1);
        }
    }
    Ok(part)
}

/// No mark for each of `count` things.
fn no_marks(alloc: Global, count: usize) -> Result<List<bool>, AllocError> {
    let mut marks = List::new(alloc);
    for _at in 0..count {
        marks.push(false)?;
    }
    Ok(marks)
}

/// Marks the things of these numbers but the first `own`, which have no mark. Numbers count from 1.
fn mark(marks: &mut List<bool>, own: usize, numbers: &[u32]) {
    for number in numbers {
        let number = *number as usize;
        if number > own && number - own <= marks.len() {
            marks.set(number - own - 1, true);
        }
    }
}

/// The choices that no component names. The first of them has the number after `own`.
pub fn unnamed(
    alloc: Global,
    choices: &[Choice],
    own: usize,
    components: &[List<u32>],
) -> Result<List<Choice>, AllocError>
    ensures { IfOk result (λ left. length left ≤ length choices.now) }
{
    let mut marks = no_marks(alloc, choices.len())?;
    for component in components {
        mark(&mut marks, own, component.as_slice());
    }
    let mut left = List::new(alloc);
    for at in 0..choices.len() {
        match marks.as_slice().get(at) {
            Some(false) => left.push(choices[at])?,
            _ => {}
        }
    }
    Ok(left)
}
