//! Literals that compare the difference of two names with a bound.
use hp_lit::{IdxLit, Lit, Name, NumLit, Part, PtrLit, Rel};

/// How a difference stands to its bound.
#[derive(Clone, Copy)]
pub enum Order {
    Less,
    AtMost,
    Same,
    Apart,
}

/// The difference of two nodes stands in the order to the bound. Node 0 stands for 0 and null, and a name has the node
/// after its number.
#[derive(Clone, Copy)]
pub struct Gap {
    pub left: usize,
    pub right: usize,
    pub order: Order,
    pub bound: i128,
}

/// The nodes of a difference.
#[derive(Clone, Copy)]
struct Ends {
    left: usize,
    right: usize,
}

/// The node of a name.
fn node_of(name: Name) -> usize {
    (name.0 as usize).saturating_add(1)
}

/// The node of a name, or that of 0 and null.
fn side_of(name: Option<Name>) -> usize {
    match name {
        Some(name) => node_of(name),
        None => 0,
    }
}

/// The nodes whose difference is this multiple of a name.
fn ends_of_one(part: Part) -> Option<Ends> {
    match part.coef {
        1 => Some(Ends {
            left: node_of(part.name),
            right: 0,
        }),
        -1 => Some(Ends {
            left: 0,
            right: node_of(part.name),
        }),
        _ => None,
    }
}

/// The nodes whose difference is the sum of these multiples of names.
fn ends_of_two(first: Part, second: Part) -> Option<Ends> {
    if first.coef == 1 && second.coef == -1 {
        return Some(Ends {
            left: node_of(first.name),
            right: node_of(second.name),
        });
    }
    if first.coef == -1 && second.coef == 1 {
        return Some(Ends {
            left: node_of(second.name),
            right: node_of(first.name),
        });
    }
    None
}

/// The nodes whose difference is the sum of these parts.
fn ends_of(parts: &[Part]) -> Option<Ends> {
    match parts.len() {
        0 => Some(Ends { left: 0, right: 0 }),
        1 => ends_of_one(parts[0]),
        2 => ends_of_two(parts[0], parts[1]),
        _ => None,
    }
}

/// The order of a relation.
fn order_of(rel: Rel) -> Order {
    match rel {
        Rel::Le => Order::AtMost,
        Rel::Lt => Order::Less,
        Rel::Eq => Order::Same,
    }
}

/// A literal over fractions as a difference, where it is one.
fn num_gap(num: &NumLit) -> Option<Gap> {
    match ends_of(num.parts.as_slice()) {
        Some(ends) => Some(Gap {
            left: ends.left,
            right: ends.right,
            order: order_of(num.rel),
            bound: num.bound,
        }),
        None => None,
    }
}

/// A literal over whole numbers as a difference.
fn idx_gap(row: IdxLit) -> Gap {
    Gap {
        left: side_of(row.left),
        right: side_of(row.right),
        order: if row.exact {
            Order::Same
        } else {
            Order::AtMost
        },
        bound: row.bound,
    }
}

/// A literal over pointers as a difference.
fn ptr_gap(pair: PtrLit) -> Gap {
    Gap {
        left: side_of(pair.left),
        right: side_of(pair.right),
        order: if pair.same { Order::Same } else { Order::Apart },
        bound: 0,
    }
}

/// A literal as a difference of two nodes, where it is one.
pub fn gap_of(lit: &Lit) -> Option<Gap> {
    match lit {
        Lit::Num(num) => num_gap(num),
        Lit::Idx(row) => Some(idx_gap(*row)),
        Lit::Ptr(pair) => Some(ptr_gap(*pair)),
    }
}

/// An equality of two nodes up to a distance, where the literal is one.
pub fn link_of(lit: &Lit) -> Option<Gap> {
    match gap_of(lit) {
        Some(gap) => match gap.order {
            Order::Same => Some(gap),
            Order::Less | Order::AtMost | Order::Apart => None,
        },
        None => None,
    }
}
