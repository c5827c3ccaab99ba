//! Exact arithmetic at the edges of 128 bits, and lists.

use hp_num::{Frac, List, Op, Text, Whole, Wide, gcd, minus, plus, times, whole_mul_sub};
use std::cmp::Ordering;
use std::test::Fail;

/// 2^127 - 1.
const LARGEST: i128 = i128::MAX;

/// 2^126 and 2^100, whose products pass 128 bits.
const HALF: i128 = 85070591730234615865843651857942052864;

const LONG: i128 = 1267650600228229401496703205376;

/// A numerator and a denominator.
type Ratio = (i128, i128);

/// 0 where the numbers are none of a fraction.
fn frac(ratio: Ratio) -> Frac {
    let (num, den) = ratio;
    if num == i128::MIN || den < 1 {
        Frac::new(0, 1)
    } else {
        Frac::new(num, den)
    }
}

/// The first number, the operation (`/` is a quotient, of 0 by 0 too), and the second one.
fn computed(left: Frac, sign: char, right: Frac) -> Result<Frac, Wide> {
    match sign {
        '+' => Frac::add(left, right),
        '-' => Frac::sub(left, right),
        '*' => Frac::mul(left, right),
        _ => {
            if right.is_zero() {
                Ok(frac((0, 1)))
            } else {
                Frac::div(left, right)
            }
        }
    }
}

const EXACT: [(Ratio, char, Ratio, Ratio); 9] = [
    ((1, 6), '+', (1, 3), (1, 2)),
    ((1, LONG), '+', (1, LONG), (2, LONG)),
    ((1, 2), '-', (1, 3), (1, 6)),
    ((LONG, 3), '*', (9, LONG), (3, 1)),
    ((1, 2), '/', (-3, 4), (-2, 3)),
    ((-LARGEST, 1), '+', (LARGEST, 1), (0, 1)),
    ((LARGEST, 1), '-', (1, 1), (LARGEST - 1, 1)),
    ((-4, 6), '+', (0, 5), (-2, 3)),
    ((LARGEST, 2), '/', (LARGEST, 6), (3, 1)),
];

const TOO_WIDE: [(Ratio, char, Ratio, (i128, Op, i128)); 4] = [
    ((LARGEST, 1), '+', (1, 1), (LARGEST, Op::Plus, 1)),
    ((-LARGEST, 1), '-', (1, 1), (-LARGEST, Op::Plus, -1)),
    ((2, 1), '*', (-LARGEST, 1), (2, Op::Times, -LARGEST)),
    ((LARGEST, 1), '/', (-1, 2), (LARGEST, Op::Times, -2)),
];

#[test]
fn fractions(rt: HostRuntime) {
    for (left, sign, right, wanted) in EXACT {
        assert_eq!(rt; computed(frac(left), sign, frac(right)), Ok(frac(wanted)));
    }
    for (left, sign, right, (first, op, second)) in TOO_WIDE {
        let wide = Wide {
            left: first,
            op,
            right: second,
        };
        assert_eq!(rt; computed(frac(left), sign, frac(right)), Err(wide));
    }
    let reduced = Frac::new(-4, 6);
    assert_eq!(rt; (reduced.num(), reduced.den()), (-2, 3));
    assert_eq!(rt; reduced.negated(), Frac::new(2, 3));
    assert_eq!(rt; Frac::whole(Whole::new(-7)), Frac::new(-7, 1));
}

/// Fractions of which the first is less, but for the last pair; most cross products pass 128 bits.
const RISING: [(Ratio, Ratio); 5] = [
    ((LARGEST, LARGEST - 1), (LARGEST - 1, LARGEST - 2)),
    ((1 - LARGEST, LARGEST - 2), (-LARGEST, LARGEST - 1)),
    ((-LARGEST, LARGEST - 1), (LARGEST - 1, LARGEST - 2)),
    ((-1, LARGEST), (0, 1)),
    ((1, 3), (1, 2)),
];

#[test]
fn comparisons(rt: HostRuntime) {
    for (left, right) in RISING {
        assert_eq!(rt; Frac::cmp(frac(left), frac(right)), Ordering::Less);
        assert_eq!(rt; Frac::cmp(frac(right), frac(left)), Ordering::Greater);
        assert_eq!(rt; Frac::cmp(frac(left), frac(left)), Ordering::Equal);
    }
}

fn wide(left: i128, op: Op, right: i128) -> Result<i128, Wide> {
    Err(Wide { left, op, right })
}

#[test]
fn whole_numbers(rt: HostRuntime) {
    assert_eq!(rt; times(HALF, -2), wide(HALF, Op::Times, -2));
    assert_eq!(rt; times(LARGEST, -1), Ok(-LARGEST));
    assert_eq!(rt; plus(LARGEST - 1, 1), Ok(LARGEST));
    assert_eq!(rt; plus(-LARGEST, -1), wide(-LARGEST, Op::Plus, -1));
    assert_eq!(rt; minus(-LARGEST, 1), wide(-LARGEST, Op::Minus, 1));
    assert_eq!(rt; minus(0, LARGEST), Ok(-LARGEST));
    assert_eq!(rt; whole_mul_sub(2, 3, 4, 5), Ok(-14));
    let two = Whole::new(2);
    assert_eq!(rt;
        Whole::mul_sub(two, two, Whole::new(3), two),
        Ok(Whole::new(-2))
    );
    assert_eq!(rt; gcd(12, 18), 6);
    assert_eq!(rt; gcd(0, 5), 5);
    assert_eq!(rt;
        whole_mul_sub(2, 3, LONG, LONG),
        wide(LONG, Op::Times, LONG)
    );
    assert_eq!(rt;
        whole_mul_sub(LARGEST, 1, -1, 1),
        wide(LARGEST, Op::Minus, -1)
    );
}

#[test]
fn lists_and_texts_hold_what_was_pushed(rt: HostRuntime) -> Result<(), Fail> {
    let mut list = List::new(rt.alloc());
    list.push(5u8)?;
    list.push(6)?;
    list.push(7)?;
    list.set(1, 9);
    assert_eq!(rt; *list.get(1), 9);
    assert_eq!(rt; list.pop(), Some(7));
    assert_eq!(rt; list.as_slice(), [5, 9].as_slice());
    let again = List::from_slice(rt.alloc(), list.as_slice())?;
    assert_eq!(rt; again.as_slice(), [5, 9].as_slice());
    let mut text = Text::from_slice(rt.alloc(), b"ab")?;
    let copy = text.copy(rt.alloc())?;
    text.push(b'c')?;
    text.extend_from_slice(b"de")?;
    assert_eq!(rt; text.as_slice(), b"abcde".as_slice());
    assert_eq!(rt; copy.as_slice(), b"ab".as_slice());
    let mut roomy = Text::with_capacity(rt.alloc(), 2)?;
    roomy.extend_from_slice(b"abc")?;
    assert_eq!(rt; roomy.as_slice(), b"abc".as_slice());
    Ok(())
}
