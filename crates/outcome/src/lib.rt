// The outcomes of all stations, from their values, grades and counts.
#![tactic(auto)]

ghost use Rattle.std.specs.Prelude.{◌≡◌, length};
ghost use Rattle.line.specs.Writing.{over};
ghost use Rattle.outcome.specs.Outcome.{outcome_byte, outcome_at, reach};

use line::{Line, marks};

// Byte d of a station's outcome: value, grade, flag, and how many rounds had a garbled ballot; 255 at a bad station.
#[tactic(auto, unfolding(crate::specs::Outcome::outcome_byte, broadcast::specs::Bytes::pick))]
fn outcome_byte(bad: bool, value: u8, grade: u8, garbled: u8, d: usize) -> u8
    ensures { result ≡ outcome_byte bad value grade garbled d }
{
    match d {
        _ if bad => 255,
        0 => value,
        1 => grade,
        2 => step::flag(grade),
        _ => garbled,
    }
}

// A station's outcome after the other, as far as the buffer goes: those of 32 stations at most.
pub fn write(value: [u8; 32], grade: [u8; 32], garbled: [u8; 32], marks: u32, outcomes: &mut [u8])
    ensures { outcomes.new ≡ over outcomes.old 0 (reach (length outcomes.old)) (outcome_at value grade garbled marks) }
{
    let end = outcomes.len().min(Line::LARGEST_OUTCOMES);
    for (k, byte) in outcomes[..end].iter_mut().enumerate() {
        let i = k / Line::OUTCOME;
        let bad = marks::is_marked(marks, i as u8);
        *byte = outcome_byte(bad, value[i], grade[i], garbled[i], k % Line::OUTCOME);
    }
}
