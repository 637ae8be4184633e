// The garbled ballots of a round, at all receivers at once. The place j of an array is the station counted j from 0; places beyond n are of no station, and open.
#![tactic(auto)]

ghost use Rattle.std.specs.Prelude.{◌≡◌};
ghost use Rattle.line.specs.Writing.{Each};
ghost use Rattle.broadcast.specs.Broadcast.{speaks};
ghost use Rattle.step.specs.Part.{of_part};
ghost use Rattle.garbled.specs.Found.{from, found, above, but_silence};

use line::{Line, marks};
use std::array;
use step::Part;

// Whether a ballot of station i is expected: from all in an exchange, otherwise from the sender or the king.
#[tactic(auto, unfolding(broadcast::specs::Broadcast::speaks))]
fn expected(part: Part, sender: u8, i: u8) -> bool
    ensures { result ≡ speaks sender (of_part part) i }
{
    match part {
        Part::Sender => i == sender,
        Part::First | Part::Second => true,
        Part::King(king) => i == king,
    }
}

// Whether station i is one of those that are looked at, and its ballot expected.
#[tactic(auto, unfolding(crate::specs::Found::from))]
fn looked_at(senders: u32, part: Part, sender: u8, i: u8) -> bool
    ensures { result ≡ from senders sender part i }
{
    marks::is_marked(senders, i) && expected(part, sender, i)
}

// The bytes above it, but for silence, are garbled in this part: blank counts as a ballot in the second round of an exchange alone.
#[tactic(auto, unfolding(crate::specs::Found::above))]
fn above(part: Part) -> u8
    ensures { result ≡ above part }
{
    match part {
        Part::Sender | Part::First | Part::King(_) => 1,
        Part::Second => Line::BLANK,
    }
}

// A byte, silence as 0.
#[tactic(auto, unfolding(crate::specs::Found::but_silence))]
fn but_silence(b: u8) -> u8
    ensures { result ≡ but_silence b }
{
    if b == Line::SILENCE { 0 } else { b }
}

// 1 at each receiver for which an expected ballot of these senders is garbled, in the round that starts at `start`, otherwise 0; 0 too where the bytes have no
// such round. Of the bytes to a receiver, the highest but for silence tells.
pub fn found(
    line: Line,
    senders: u32,
    sender: u8,
    part: Part,
    bytes: &[u8],
    start: usize,
) -> [u8; 32]
    ensures { Each line.n result (found line.n senders sender part bytes.now start) }
{
    if senders == 0 || !line.has_round(start, bytes.len()) {
        return [0; 32];
    }
    let mut highest = [0u8; 32];
    for i in 0..line.n {
        if looked_at(senders, part, sender, i) {
            let row = column::sent_by(line, bytes, start, i);
            highest = array::from_fn(|j| highest[j].max(but_silence(row[j])));
        }
    }
    let bound = above(part);
    array::from_fn(|j| u8::from(bound < highest[j]))
}
