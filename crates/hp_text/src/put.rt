//! Pieces put at the end of a text: bytes as they are, and whole numbers in decimal digits.
//! A piece is put whole or not at all.

ghost use Rattle.std.specs.Prelude.{◌≡◌, ◌++◌, OnOk, OnErr};
ghost use Rattle.std.specs.Fmt.{signed_decimal};

use hp_num::Text;
use itoa::Buffer;
use std::alloc::AllocError;

/// Puts the bytes of `piece` at the end of `out`.
///
/// An `Err` comes where memory is short, and then `out` is as before.
pub fn put_text(out: &mut Text, piece: &[u8]) -> Result<(), AllocError>
    ensures put { OnOk result (out.new ≡ out.old ++ piece.now) }
    ensures unchanged { OnErr result (out.new ≡ out.old) }
{
    out.extend_from_slice(piece)
}

/// Puts the decimal digits of `n` at the end of `out`: none before the first that is not 0, but for the one digit of 0,
/// and `-` in front of a negative number.
///
/// An `Err` comes where memory is short, and then `out` is as before.
pub fn put_whole(out: &mut Text, n: i128) -> Result<(), AllocError>
    ensures put { OnOk result (out.new ≡ out.old ++ signed_decimal n) }
    ensures unchanged { OnErr result (out.new ≡ out.old) }
{
    let mut buffer = Buffer::new();
    out.extend_from_slice(buffer.format(n).as_bytes())
}
