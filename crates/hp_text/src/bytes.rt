//! The classes of bytes that tokens are made of, and how far a run of one class goes.

ghost use Rattle.std.specs.Prelude.{◌≡◌, ◌≤◌, length};
ghost use Rattle.std.specs.List.{prefix_len};
ghost use Rattle.hp_text.specs.Bytes.{is_blank, is_digit, is_letter, is_name_byte};

pub(crate) fn is_blank_byte(b: u8) -> bool
    ensures { result ≡ is_blank b }
{
    b == b' ' || (b == b'\t' || (b == b'\r' || b == b'\n'))
}

pub(crate) fn is_digit_byte(b: u8) -> bool
    ensures { result ≡ is_digit b }
{
    b'0' <= b && b <= b'9'
}

pub(crate) fn is_letter_byte(b: u8) -> bool
    ensures { result ≡ is_letter b }
{
    (b'A' <= b && b <= b'Z') || (b'a' <= b && b <= b'z')
}

fn may_follow(b: u8) -> bool
    ensures { result ≡ is_name_byte b }
{
    is_letter_byte(b) || (is_digit_byte(b) || (b == b'_' || b == b'\''))
}

/// How many bytes at the front may stand in a name.
pub(crate) fn name_length(bytes: &[u8]) -> usize
    ensures run { result ≡ prefix_len is_name_byte bytes.now }
    ensures within { result ≤ length bytes.now }
{
    bytes.iter().take_while(|b| may_follow(**b)).count()
}

/// How many digits stand at the front.
pub(crate) fn digit_count(bytes: &[u8]) -> usize
    ensures run { result ≡ prefix_len is_digit bytes.now }
    ensures within { result ≤ length bytes.now }
{
    bytes.iter().take_while(|b| is_digit_byte(**b)).count()
}
