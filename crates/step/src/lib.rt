// The protocol's steps, each a function of numbers: counts, bytes and thresholds. Whoever runs stations, one or a whole line, calls these. Stations are counted
// from 0 here.
#![tactic(auto)]

ghost use Rattle.std.specs.Prelude.{◌≡◌, ◌-◌, eqb, if◌then◌else◌};
ghost use Rattle.line.specs.Ballot.{silence, bit_or};
ghost use Rattle.broadcast.specs.Exchange.{z_from, y_from, for_y, grade_of, flag_of};
ghost use Rattle.broadcast.specs.Broadcast.{part, obey};
ghost use Rattle.broadcast.specs.Station.{told};
ghost use Rattle.step.specs.Part.{as_part, of_part};
ghost use Rattle.step.specs.Noted.{noted};

use line::Line;
use line::ballot::Ballot;

// Which part of a broadcast a round is: the sender's, the first or the second round of an exchange, or the king's, with the king's number.
#[derive(Clone, Copy)]
pub enum Part {
    Sender,
    First,
    Second,
    King(u8),
}

// The only place that knows which round is which part.
#[tactic(auto, unfolding(broadcast::specs::Broadcast::part))]
pub fn part_of(round: u8) -> Part
    ensures { result ≡ as_part (part round) }
{
    match (round, round % 3) {
        (1, _) => Part::Sender,
        (_, 2) => Part::First,
        (_, 0) => Part::Second,
        _ => Part::King(round / 3 - 1),
    }
}

// The ballot of a station that speaks if it is the speaker, otherwise silence.
fn spoken(speaker: u8, own: u8, value: u8) -> u8
    ensures { result ≡ (if eqb own speaker then value else silence) }
{
    if own == speaker { value } else { Line::SILENCE }
}

// What the station tells in each part.
#[tactic(auto, unfolding(broadcast::specs::Station::told, broadcast::specs::Station::held, broadcast::specs::Broadcast::speaks))]
pub fn told(part: Part, sender: u8, own: u8, value: u8, z: u8) -> u8
    ensures { result ≡ told sender own value z (of_part part) }
{
    match part {
        Part::Sender => spoken(sender, own, value),
        Part::First => value,
        Part::Second => z,
        Part::King(king) => spoken(king, own, value),
    }
}

// The count of rounds with a garbled ballot after a round that has so many: one more, if any, and not beyond a byte.
#[tactic(auto, unfolding(crate::specs::Noted::noted))]
pub fn noted(garbled: u8, found: u8) -> u8
    ensures { result ≡ noted garbled found }
{
    garbled.saturating_add(u8::from(found != 0))
}

// Round 1: x, from what was heard of the sender.
pub fn x(heard: Ballot) -> u8
    ensures { result ≡ bit_or 0 heard }
{
    heard.bit_or(0)
}

// n less a threshold, 0 where the threshold is larger.
pub fn less(n: u8, threshold: u8) -> u8
    ensures { result ≡ n - threshold }
{
    n.saturating_sub(threshold)
}

// Step 2 of the exchange: z, from how many ballots equal x.
#[tactic(auto, unfolding(broadcast::specs::Exchange::z_from))]
pub fn z(n: u8, upper: u8, x: u8, count: u8) -> u8
    ensures { result ≡ z_from n upper x count }
{
    let quorum = less(n, upper);
    if quorum <= count { x } else { Line::BLANK }
}

// Step 4: y, from the zeros and the ones.
#[tactic(auto, unfolding(broadcast::specs::Exchange::y_from))]
pub fn y(zeros: u8, ones: u8) -> u8
    ensures { result ≡ y_from zeros ones }
{
    u8::from(zeros < ones)
}

// Step 5: the grade. The count for y is the larger one.
#[tactic(auto, unfolding(broadcast::specs::Exchange::grade_of, broadcast::specs::Exchange::for_y, broadcast::specs::Exchange::y_from))]
pub fn grade(n: u8, t: u8, upper: u8, zeros: u8, ones: u8) -> u8
    ensures { result ≡ grade_of n t upper (for_y zeros ones) }
{
    let count = zeros.max(ones);
    if less(n, t) <= count {
        2
    } else if less(n, upper) <= count {
        1
    } else {
        0
    }
}

// 1 when the grade is below 2.
#[tactic(auto, unfolding(broadcast::specs::Exchange::flag_of))]
pub fn flag(grade: u8) -> u8
    ensures { result ≡ flag_of grade }
{
    u8::from(grade < 2)
}

// The value after the king's ballot: its bit at grade 0, if it has one, otherwise the own y.
#[tactic(auto, unfolding(broadcast::specs::Broadcast::obey, line::specs::Ballot::king_value))]
pub fn obey(grade: u8, y: u8, heard: Ballot) -> u8
    ensures { result ≡ obey grade y heard }
{
    if grade == 0 { heard.bit_or(y) } else { y }
}
