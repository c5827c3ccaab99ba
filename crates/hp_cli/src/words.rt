//! What the words of the command line ask for.

ghost use Rattle.std.specs.Prelude.{◌≡◌, ◌≤◌, ◌↔◌, IfSome, IsTrue, MatchOption, ℕ, map, string_bytes, Some};
ghost use Rattle.std.specs.Fmt.{decimal};
ghost use Rattle.hp_cli.specs.Words.{Asks, IsUsage};

use itoa::Buffer;

/// What is to be done with the problem that the input spells.
#[derive(Clone, Copy, Debug, PartialEq, Eq)]
pub enum Task {
    /// To decide it by a search with at most so many nodes.
    Solve(u64),
    /// To print it.
    Print,
}

/// The limit on the nodes of a search where the words name none.
const DEFAULT_NODES: u64 = 100_000;

/// Whether a word is this text.
fn is_text(word: &String, text: &str) -> bool
    ensures { IsTrue result ↔ (string_bytes word.now ≡ text.now) }
{
    word.as_str() == text
}

/// A number of nodes from 1 to 1,000,000, in decimal digits without a sign and without a zero in front.
fn nodes(word: &String) -> Option<u64>
    ensures found { IfSome result (λ most. (string_bytes word.now ≡ decimal most) × (1 ≤ most) × (most ≤ 1000000)) }
    ensures only { (most : ℕ) → string_bytes word.now ≡ decimal most → 1 ≤ most → most ≤ 1000000 → result ≡ Some most }
{
    match word.as_str().parse::<u32>() {
        Ok(most) => {
            let mut buffer = Buffer::new();
            let is_canonical = buffer.format(most) == word.as_str();
            if is_canonical && 1 <= most && most <= 1_000_000 {
                Some(u64::from(most))
            } else {
                None
            }
        }
        Err(_) => None,
    }
}

impl Task {
    /// What the words ask for, or `None` where they are no command.
    pub fn from_words(words: &[String]) -> Option<Task>
        ensures { MatchOption result (IsUsage (map string_bytes words.now)) (Asks (map string_bytes words.now)) }
    {
        match words {
            [first] => {
                if is_text(first, "solve") {
                    Some(Task::Solve(DEFAULT_NODES))
                } else if is_text(first, "print") {
                    Some(Task::Print)
                } else {
                    None
                }
            }
            [first, option, number] => {
                if is_text(first, "solve") && is_text(option, "--nodes") {
                    match nodes(number) {
                        Some(most) => Some(Task::Solve(most)),
                        None => None,
                    }
                } else {
                    None
                }
            }
            _ => None,
        }
    }
}
