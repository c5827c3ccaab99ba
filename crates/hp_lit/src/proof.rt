/// A literal over fractions with its multiplier. Literals count from 1.
#[derive(Clone, Copy, Debug, PartialEq, Eq)]
pub struct Share {
    pub lit: u32,
    pub times: i128,
}

/// A literal over whole numbers, taken as it stands, or, where it is an equality, turned about: right minus left with
/// the bound negated. Literals count from 1.
#[derive(Clone, Copy, Debug, PartialEq, Eq)]
pub struct Step {
    pub lit: u32,
    pub forward: bool,
}

/// A literal of a line, both counted from 1.
#[derive(Clone, Copy, Debug, PartialEq, Eq)]
pub struct Choice {
    pub line: u32,
    pub lit: u32,
}
