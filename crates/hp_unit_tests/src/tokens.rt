//! Tokens with their places, numerals, and numbers that are printed.

use hp_num::Text;
use hp_text::{Cursor, Kind, Token, TokenErr, numeral, put_text, put_whole};
use std::test::Fail;

/// The kind of a token, where it begins, and where it ends.
type Seen = (Kind, usize, usize);

const SIGNS: [Seen; 20] = [
    (Kind::LessEq, 0, 2),
    (Kind::Less, 3, 4),
    (Kind::Equal, 5, 6),
    (Kind::NotEqual, 7, 9),
    (Kind::GreaterEq, 10, 12),
    (Kind::Greater, 13, 14),
    (Kind::Arrow, 15, 17),
    (Kind::And, 18, 19),
    (Kind::Or, 20, 21),
    (Kind::OpenRound, 22, 23),
    (Kind::CloseRound, 24, 25),
    (Kind::OpenSquare, 25, 26),
    (Kind::CloseSquare, 26, 27),
    (Kind::Comma, 27, 28),
    (Kind::Colon, 28, 29),
    (Kind::Semicolon, 29, 30),
    (Kind::Plus, 30, 31),
    (Kind::Minus, 31, 32),
    (Kind::Star, 32, 33),
    (Kind::Slash, 33, 34),
];

const LONGEST: [Seen; 6] = [
    (Kind::LessEq, 0, 2),
    (Kind::Less, 2, 3),
    (Kind::Minus, 3, 4),
    (Kind::Arrow, 4, 6),
    (Kind::GreaterEq, 6, 8),
    (Kind::Equal, 8, 9),
];

const WORDS: [Seen; 22] = [
    (Kind::Profile, 0, 7),
    (Kind::Name, 8, 16),
    (Kind::Const, 17, 22),
    (Kind::Name, 23, 31),
    (Kind::Fun, 32, 35),
    (Kind::Name, 36, 40),
    (Kind::Level, 41, 46),
    (Kind::Name, 47, 53),
    (Kind::Clause, 54, 60),
    (Kind::Name, 61, 68),
    (Kind::Query, 69, 74),
    (Kind::Name, 75, 81),
    (Kind::Num, 82, 85),
    (Kind::Name, 86, 90),
    (Kind::Idx, 91, 94),
    (Kind::Name, 95, 99),
    (Kind::Ptr, 100, 103),
    (Kind::Name, 104, 108),
    (Kind::Null, 109, 113),
    (Kind::Name, 114, 118),
    (Kind::False, 119, 124),
    (Kind::Name, 125, 131),
];

const COMMENTS: [Seen; 4] = [
    (Kind::Name, 0, 1),
    (Kind::Name, 10, 11),
    (Kind::Minus, 14, 15),
    (Kind::Name, 15, 16),
];

const NUMERALS: [Seen; 3] = [
    (Kind::Numeral, 0, 1),
    (Kind::Name, 1, 4),
    (Kind::Numeral, 5, 23),
];

/// Texts, and all their tokens but the end.
const TEXTS: [(&[u8], &[Seen]); 7] = [
    (b"<= < = != >= > -> & | ( )[],:;+-*/", &SIGNS),
    (b"<=<-->>==", &LONGEST),
    (
        b"profile profiles const constant fun funs level level_ clause clause2 query query' num num1 idx idxs ptr ptrs null Null false falser",
        &WORDS,
    ),
    (b"a# b \xff <=\nc\t\r\n-d#e", &COMMENTS),
    (b"1abc 123456789012345678", &NUMERALS),
    (b" # # \n#", &[]),
    (b"", &[]),
];

fn token(seen: Seen) -> Token {
    let (kind, start, end) = seen;
    Token { kind, start, end }
}

#[test]
fn tokens_in_order(rt: HostRuntime) {
    for (text, tokens) in TEXTS {
        let mut cursor = Cursor::new(text);
        for seen in tokens {
            assert_eq!(rt; cursor.next(), Ok(token(*seen)));
        }
        let end = token((Kind::End, text.len(), text.len()));
        assert_eq!(rt; cursor.next(), Ok(end));
    }
}

/// Texts whose first token is a name, and the error behind it.
const FAULTS: [(&[u8], TokenErr); 6] = [
    (b"a !", TokenErr::Stray { offset: 2 }),
    (b"a\x80", TokenErr::Stray { offset: 1 }),
    (b"a \xff", TokenErr::Stray { offset: 2 }),
    (b"a _b", TokenErr::Stray { offset: 2 }),
    (b"a 'b", TokenErr::Stray { offset: 2 }),
    (
        b"a #b\n 1234567890123456789",
        TokenErr::LongNumeral { offset: 6 },
    ),
];

#[test]
fn faults_come_again(rt: HostRuntime) {
    for (text, error) in FAULTS {
        let mut cursor = Cursor::new(text);
        assert!(rt; cursor.next().is_ok());
        assert_eq!(rt; cursor.next(), Err(error));
        assert_eq!(rt; cursor.next(), Err(error));
    }
}

/// The value of the numeral at the front.
fn value(text: &[u8]) -> Option<i128> {
    let token = Cursor::new(text).next().ok()?;
    if token.kind == Kind::Numeral {
        Some(numeral(&text[token.start..token.end]))
    } else {
        None
    }
}

#[test]
fn numbers_are_read_and_printed(rt: HostRuntime) -> Result<(), Fail> {
    assert_eq!(rt; value(b"123456789012345678,"), Some(123456789012345678));
    assert_eq!(rt; value(b" 007"), Some(7));
    assert_eq!(rt; value(b"x"), None);
    let mut out = Text::new(rt.alloc());
    for n in [0, 7, -1, 10, -305, i128::MAX, i128::MIN] {
        put_whole(&mut out, n)?;
        put_text(&mut out, b";")?;
    }
    let text =
        b"0;7;-1;10;-305;170141183460469231731687303715884105727;-170141183460469231731687303715884105728;";
    assert_eq!(rt; out.as_slice(), text.as_slice());
    Ok(())
}
