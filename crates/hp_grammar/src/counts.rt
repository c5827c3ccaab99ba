//! The limits of a text, counted token by token as in `specs/Counts.antt`.

ghost use Rattle.std.specs.Prelude.{◌≡◌, Option, Some, None};
ghost use Rattle.hp_grammar.specs.Counts.{nothing_counted, one_sign, one_open, one_closed, behind_part as counts_behind_part, inside as counts_inside, new_atom as counts_of_new_atom, ends_atom as ends_atom_kind, count_other, count_sign, count_word, count as counts_behind};

use crate::symbol::{Symbol, same};
use hp_text::Kind;

/// How many parentheses are open, how many signs stand between the parts of the present atom, and whether a part has just ended.
#[derive(Clone, Copy)]
pub struct Counts {
    pub open_round: u8,
    pub signs: u16,
    pub ended: bool,
}

impl Counts {
    /// No token is counted yet.
    pub fn new() -> Counts
        ensures { result ≡ nothing_counted }
    {
        Counts {
            open_round: 0,
            signs: 0,
            ended: false,
        }
    }

    /// One more sign between parts, unless there are 1,023.
    fn with_sign(self) -> Option<Counts>
        ensures { result ≡ one_sign self }
    {
        if self.signs < 1023 {
            Some(Counts {
                open_round: self.open_round,
                signs: self.signs + 1,
                ended: false,
            })
        } else {
            None
        }
    }

    /// One more open parenthesis, unless there are 64.
    fn with_open(self) -> Option<Counts>
        ensures { result ≡ one_open self }
    {
        if self.open_round < 64 {
            Some(Counts {
                open_round: self.open_round + 1,
                signs: self.signs,
                ended: false,
            })
        } else {
            None
        }
    }

    fn with_closed(self) -> Counts
        ensures { result ≡ one_closed self }
    {
        Counts {
            open_round: self.open_round.saturating_sub(1),
            signs: self.signs,
            ended: true,
        }
    }

    /// Behind a name, a numeral or `null`.
    fn behind_part(self) -> Counts
        ensures { result ≡ counts_behind_part self }
    {
        Counts {
            open_round: self.open_round,
            signs: self.signs,
            ended: true,
        }
    }

    fn inside(self) -> Counts
        ensures { result ≡ counts_inside self }
    {
        Counts {
            open_round: self.open_round,
            signs: self.signs,
            ended: false,
        }
    }

    fn new_atom(self) -> Counts
        ensures { result ≡ counts_of_new_atom self }
    {
        Counts {
            open_round: self.open_round,
            signs: 0,
            ended: false,
        }
    }

    #[tactic(auto, unfolding(crate::specs::Counts::count_other))]
    fn other(self, kind: Kind) -> Option<Counts>
        ensures { result ≡ count_other self kind }
    {
        if same(kind, Kind::Null) {
            Some(self.behind_part())
        } else if ends_atom(kind) {
            Some(self.new_atom())
        } else {
            Some(self.inside())
        }
    }

    #[tactic(auto, unfolding(crate::specs::Counts::count_sign))]
    fn sign(self, kind: Kind) -> Option<Counts>
        ensures { result ≡ count_sign self kind }
    {
        if same(kind, Kind::Plus) {
            self.with_sign()
        } else if same(kind, Kind::Minus) {
            if self.ended {
                self.with_sign()
            } else {
                Some(self)
            }
        } else {
            self.other(kind)
        }
    }

    #[tactic(auto, unfolding(crate::specs::Counts::count_word))]
    fn word(self, kind: Kind) -> Option<Counts>
        ensures { result ≡ count_word self kind }
    {
        if same(kind, Kind::OpenRound) {
            self.with_open()
        } else if same(kind, Kind::CloseRound) {
            Some(self.with_closed())
        } else {
            self.sign(kind)
        }
    }

    /// The counts behind one more token, or none where it passes a limit.
    pub fn count(self, symbol: &Symbol) -> Option<Counts>
        ensures { result ≡ counts_behind self symbol.now }
    {
        match symbol {
            Symbol::Word(kind) => self.word(*kind),
            Symbol::Name(_) | Symbol::Numeral(_) => Some(self.behind_part()),
        }
    }
}

/// Whether an atom begins behind the sign.
#[tactic(auto, unfolding(crate::specs::Counts::ends_atom))]
fn ends_atom(kind: Kind) -> bool
    ensures { result ≡ ends_atom_kind kind }
{
    same(kind, Kind::And)
        || (same(kind, Kind::Or) || (same(kind, Kind::Arrow) || same(kind, Kind::Semicolon)))
}
