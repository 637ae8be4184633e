// How a received ballot byte is read, by the kind of round that it came in, and what is made of a reading.
ghost use Rattle.std.specs.Prelude.{◌≡◌, if◌then◌else◌};
ghost use Rattle.line.specs.Ballot.{bit_round, blank_round, read_sender, read_first, read_second, read_king, is_garbled, bit_or};

use crate::Line;

// Which it was: a bit; a blank, where the round has one; silence; or garbled, a byte that its round has no meaning for.
#[derive(Clone, Copy, PartialEq, Eq, Debug)]
pub enum Ballot {
    Bit(u8),
    Blank,
    Silence,
    Garbled,
}

impl Ballot {
    // The bit, and d for what is none.
    pub fn bit_or(self, d: u8) -> u8
        ensures { result ≡ bit_or d self }
    {
        match self {
            Ballot::Bit(b) => b,
            Ballot::Blank | Ballot::Silence | Ballot::Garbled => d,
        }
    }

    // 1 where it was garbled, otherwise 0.
    pub fn garbled(self) -> u8
        ensures { result ≡ (if is_garbled self then 1 else 0) }
    {
        u8::from(matches!(self, Ballot::Garbled))
    }
}

// In a round that has a meaning for 0 and 1 alone.
#[tactic(auto, unfolding(crate::specs::Ballot::bit_round))]
fn bit_round(b: u8) -> Ballot
    ensures { result ≡ bit_round b }
{
    match b {
        0 | 1 => Ballot::Bit(b),
        Line::SILENCE => Ballot::Silence,
        _ => Ballot::Garbled,
    }
}

// In one that has a meaning for blank too.
#[tactic(auto, unfolding(crate::specs::Ballot::blank_round))]
fn blank_round(b: u8) -> Ballot
    ensures { result ≡ blank_round b }
{
    match b {
        Line::BLANK => Ballot::Blank,
        _ => bit_round(b),
    }
}

// A reader for each kind of round, though three are alike: each promises its own definition, which says what that round means.

// In round 1, from the sender.
#[tactic(auto, unfolding(crate::specs::Ballot::read_sender))]
pub fn read_sender(b: u8) -> Ballot
    ensures { result ≡ read_sender b }
{
    bit_round(b)
}

// In the first round of a graded exchange.
#[tactic(auto, unfolding(crate::specs::Ballot::read_first))]
pub fn read_first(b: u8) -> Ballot
    ensures { result ≡ read_first b }
{
    bit_round(b)
}

// In the second round of a graded exchange.
#[tactic(auto, unfolding(crate::specs::Ballot::read_second))]
pub fn read_second(b: u8) -> Ballot
    ensures { result ≡ read_second b }
{
    blank_round(b)
}

// In the last round of a phase, from the king.
#[tactic(auto, unfolding(crate::specs::Ballot::read_king))]
pub fn read_king(b: u8) -> Ballot
    ensures { result ≡ read_king b }
{
    bit_round(b)
}
