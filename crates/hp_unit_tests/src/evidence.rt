//! Texts of evidence that no run shows today, by the rules of its form.

use hp_cert::{Entry, Refutation, body, overflow_text};
use hp_descent::{At, Form, Place, RowStrain, Strain};
use hp_leaf::{LeafProof, Node};
use hp_lit::{Choice, Share};
use hp_num::{List, Op, Text, Wide};
use std::alloc::{AllocError, Global};

const LARGEST: i128 = i128::MAX;

/// The choices to a place as lines and literals, a chain, where, in which form, the operation, and the text.
type Overflow = (
    &'static [(u32, u32)],
    &'static [u32],
    At,
    Form,
    (i128, Op, i128),
    &'static [u8],
);

const OVERFLOWS: [Overflow; 4] = [
    (
        &[(1, 1), (4, 2)],
        &[5, 3],
        At::Row(2),
        Form::Elimination,
        (LARGEST, Op::Times, -2),
        b"overflow path 1.1 4.2; chain 5 3; at 2; form 1; 170141183460469231731687303715884105727 * -2\n",
    ),
    (
        &[],
        &[],
        At::Point,
        Form::Coordinate,
        (LARGEST, Op::Plus, 1),
        b"overflow path; chain; at point; form 2; 170141183460469231731687303715884105727 + 1\n",
    ),
    (
        &[(7, 1)],
        &[2],
        At::Literal { line: 7, lit: 1 },
        Form::Sum,
        (-LARGEST, Op::Minus, 1),
        b"overflow path 7.1; chain 2; at 7.1; form 3; -170141183460469231731687303715884105727 - 1\n",
    ),
    (
        &[(7, 1)],
        &[3, 1],
        At::Point,
        Form::Value,
        (2, Op::Times, LARGEST),
        b"overflow path 7.1; chain 3 1; at point; form 4; 2 * 170141183460469231731687303715884105727\n",
    ),
];

fn choices(alloc: Global, numbers: &[(u32, u32)]) -> Result<List<Choice>, AllocError> {
    let mut choices = List::new(alloc);
    for (line, lit) in numbers {
        choices.push(Choice {
            line: *line,
            lit: *lit,
        })?;
    }
    Ok(choices)
}

#[test]
fn overflows(rt: HostRuntime) -> Result<(), AllocError> {
    for (path, chain, at, form, (left, op, right), wanted) in OVERFLOWS {
        let strain = Strain {
            place: Place::Path(choices(rt.alloc(), path)?),
            row: RowStrain {
                chain: List::from_vec(Vec::from_slice(rt.alloc(), chain)?),
                at,
                form,
                wide: Wide { left, op, right },
            },
        };
        let text = overflow_text(rt.alloc(), &strain)?;
        assert_eq!(rt; text.as_slice(), wanted);
    }
    Ok(())
}

#[test]
fn definitions_and_nodes(rt: HostRuntime) -> Result<(), AllocError> {
    let alloc = rt.alloc();
    let mut defs = List::new(alloc);
    defs.push(Entry {
        number: 1,
        text: Text::from_slice(alloc, b"c + 1")?,
    })?;
    let shares = [Share { lit: 1, times: 2 }, Share { lit: 3, times: -1 }];
    let mut tree = List::new(alloc);
    tree.push(Node::Leaf(LeafProof::Num(List::from_vec(Vec::from_slice(alloc, &shares)?))))?;
    tree.push(Node::Leaf(LeafProof::Ptr {
        ne: 2,
        path: List::from_vec(Vec::from_slice(alloc, &[1, 3])?),
    }))?;
    tree.push(Node::Unopened)?;
    let r = Refutation {
        defs,
        lines: List::new(alloc),
        tree,
    };
    let text = body(alloc, &r)?;
    let wanted = b"def _1 = c + 1\nleaf num 1:2 3:-1\nleaf ptr 2: 1 3\nopen\n";
    assert_eq!(rt; text.as_slice(), wanted.as_slice());
    Ok(())
}
