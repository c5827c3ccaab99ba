//! The values of numerals.

ghost use Rattle.std.specs.Prelude.{◌≡◌, ◌<◌, ◌^◌, pos};
ghost use Rattle.hp_text.specs.Numeral.{IsNumeral, numeral_value};

/// The number that 1 to 18 digits write in decimal, the first digit counting most. Zeros in front count nothing.
pub fn numeral(bytes: &[u8]) -> i128
    requires { IsNumeral bytes.now }
    ensures value { result ≡ pos (numeral_value bytes.now) }
    ensures small { numeral_value bytes.now < 10 ^ 18 }
{
    let mut value: u64 = 0;
    for digit in bytes {
        value = 10 * value + u64::from(*digit - b'0');
    }
    i128::from(value)
}
