//! The two sides of a literal over whole numbers or pointers: each a name, or none.
ghost use Rattle.std.specs.Prelude.{◌≡◌, true, false};

use hp_lit::Name;

/// Whether two sides are the same name, or both none.
pub fn is_same(left: Option<Name>, right: Option<Name>) -> bool
    ensures yes { result ≡ true → left ≡ right }
    ensures no { result ≡ false → left ≡ right → ⊥ }
{
    match left {
        None => match right {
            None => true,
            Some(_) => false,
        },
        Some(left) => match right {
            None => false,
            Some(right) => left.0 == right.0,
        },
    }
}
