//! Tuples of places below a number, as digits of a counter: the last one that isn't the largest is raised, and those behind
//! it begin again from 0.

ghost use Rattle.std.specs.Prelude.{◌≡◌, ◌<◌, ◌≤◌, ℕ, ◌+◌, ◌-◌, ◌^◌, ◌++◌, get_or, length, replicate};
ghost use Rattle.std.specs.List.{All};
ghost use Rattle.smallvec.specs.SmallVec.{HasRoomFor};
ghost use Rattle.hp_tuples.specs.Raised.{IsRaised, raise};
ghost use Rattle.hp_tuples.specs.Tuples.{IsNext, all_tuples, places, tuples_from};

use smallvec::SmallVec;
use std::alloc::Global;

/// The first tuple of so many places, at most 6: each is 0. It takes no memory.
pub fn first_tuple(alloc: Global, count: usize) -> SmallVec<usize, 6>
    requires { count ≤ 6 }
    ensures items { result.items ≡ replicate count 0 }
    ensures first { (size : ℕ) → 0 < size → tuples_from size result.items ≡ all_tuples (places size) count }
{
    let mut tuple = SmallVec::new(alloc);
    add_zeros(&mut tuple, count);
    tuple
}

/// Steps a tuple of places below `size` to the next one in lexicographic order, and says whether there is one: `false` comes
/// exactly where it was the last one, which then stays. It takes no memory.
pub fn next_tuple(tuple: &mut SmallVec<usize, 6>, size: usize) -> bool
    requires { All (λ x. x < size) tuple.old.items }
    ensures next { IsNext size tuple.old.items tuple.new.items result }
    ensures below { All (λ x. x < size) tuple.new.items }
    ensures length { length tuple.new.items ≡ length tuple.old.items }
{
    let count = raised(tuple.as_slice(), size);
    if count == 0 {
        false
    } else {
        raise(tuple, count);
        true
    }
}

/// The number of places up to the last one that can be raised, that one among them, or 0 where none can be.
fn raised(tuple: &[usize], size: usize) -> usize
    requires { All (λ x. x < size) tuple.now }
    ensures { IsRaised size tuple.now result }
{
    let mut left = tuple.len();
    while left > 0 && tuple[left - 1] + 1 >= size {
        left -= 1;
    }
    left
}

/// Raises the last of so many places, and puts 0 for those behind it.
fn raise(tuple: &mut SmallVec<usize, 6>, count: usize)
    requires some { 0 < count }
    requires within { count ≤ length tuple.old.items }
    requires fits { get_or tuple.old.items (count - 1) 0 + 1 < 2 ^ 64 }
    ensures { tuple.new.items ≡ raise count tuple.old.items }
{
    let behind = tuple.len() - count;
    let place = tuple.as_slice()[count - 1] + 1;
    tuple.truncate(count - 1);
    tuple.push_reserved(place);
    add_zeros(tuple, behind);
}

/// Puts so many zeros behind the places that are there.
fn add_zeros(tuple: &mut SmallVec<usize, 6>, count: usize)
    requires { HasRoomFor tuple.old count }
    ensures items { tuple.new.items ≡ tuple.old.items ++ replicate count 0 }
    ensures capacity { tuple.new.capacity ≡ tuple.old.capacity }
{
    let mut left = count;
    while left > 0 {
        tuple.push_reserved(0);
        left -= 1;
    }
}
