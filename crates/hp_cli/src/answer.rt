//! What the program answers, and its exit status.

/// The cause of an answer.
#[derive(Clone, Copy, Debug, PartialEq, Eq)]
pub enum Status {
    /// What was asked for is done.
    Done,
    /// The words are no command.
    Usage,
    /// A read failed.
    ReadFault,
    /// A write failed.
    WriteFault,
    /// The input spells no problem.
    Spelling,
    /// An item breaks a rule on names and sorts.
    Sort,
    /// A clause breaks a rule of the profile.
    Outside,
    /// A limit is passed.
    Limit,
    /// A number passes 2^127 - 1 on the way to a verdict.
    Overflow,
    /// A structure satisfies the problem.
    Sat,
    /// The search came to its limit of nodes.
    Spent,
    /// Memory was wanting.
    Memory,
    /// The problem is of a form that isn't decided so far.
    NotBuilt,
    /// No structure satisfies the problem.
    Unsat,
}

impl Status {
    ghost use Rattle.std.specs.Prelude.{◌≡◌};
    ghost use Rattle.hp_cli.specs.Answer.{code};

    /// The exit status.
    pub fn code(self) -> u8
        ensures { result ≡ code self }
    {
        match self {
            Status::Done => 0,
            Status::Usage => 2,
            Status::ReadFault => 3,
            Status::WriteFault => 4,
            Status::Spelling => 5,
            Status::Sort => 6,
            Status::Outside => 7,
            Status::Limit => 8,
            Status::Overflow => 9,
            Status::Sat => 10,
            Status::Spent => 11,
            Status::Memory => 12,
            Status::NotBuilt => 13,
            Status::Unsat => 20,
        }
    }
}
