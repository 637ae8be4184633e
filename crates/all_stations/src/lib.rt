// The steps at all stations of a line at once, from their bytes and counts. The place i of an array is the station counted i from 0; places beyond n are of no
// station, and filled all the same.
#![tactic(auto)]

ghost use Rattle.std.specs.Prelude.{get_or, ◌≡◌};
ghost use Rattle.line.specs.Ballot.{sender_value, read_king};
ghost use Rattle.line.specs.Writing.{Each};
ghost use Rattle.broadcast.specs.Exchange.{z_from, y_from, for_y, grade_of};
ghost use Rattle.broadcast.specs.Broadcast.{obey};
ghost use Rattle.broadcast.specs.Station.{told};
ghost use Rattle.step.specs.Part.{of_part};
ghost use Rattle.step.specs.Noted.{noted};
ghost use Rattle.all_stations.specs.Counts.{votes_for};

use line::{Line, ballot};
use std::array;
use step::Part;

// What each station tells.
pub fn tell(sender: u8, part: Part, value: [u8; 32], z: [u8; 32]) -> [u8; 32]
    ensures { Each 32 result (λ i. told sender i (get_or value i 0) (get_or z i 0) (of_part part)) }
{
    array::from_fn(|i| step::told(part, sender, i as u8, value[i], z[i]))
}

// Round 1: each station's x, from the sender's byte to it.
pub fn hear(heard: [u8; 32]) -> [u8; 32]
    ensures { Each 32 result (λ j. sender_value (get_or heard j 0)) }
{
    array::from_fn(|j| step::x(ballot::read_sender(heard[j])))
}

// How many ballots of a first round count for x, where so many bytes are x: none, if x is no value.
#[tactic(auto, unfolding(crate::specs::Counts::votes_for))]
fn votes_for(x: u8, equal: u8) -> u8
    ensures { result ≡ votes_for x equal }
{
    if x <= 1 { equal } else { 0 }
}

// The first round of an exchange: each station's z, from how many bytes are its x.
pub fn choose(line: Line, x: [u8; 32], equal: [u8; 32]) -> [u8; 32]
    ensures { Each 32 result (λ j. z_from line.n line.upper (get_or x j 0) (votes_for (get_or x j 0) (get_or equal j 0))) }
{
    array::from_fn(|j| step::z(line.n, line.upper, x[j], votes_for(x[j], equal[j])))
}

// The second: each station's y ..
pub fn decide(zeros: [u8; 32], ones: [u8; 32]) -> [u8; 32]
    ensures { Each 32 result (λ j. y_from (get_or zeros j 0) (get_or ones j 0)) }
{
    array::from_fn(|j| step::y(zeros[j], ones[j]))
}

// .. and grade.
pub fn grade(line: Line, zeros: [u8; 32], ones: [u8; 32]) -> [u8; 32]
    ensures { Each 32 result (λ j. grade_of line.n line.t line.upper (for_y (get_or zeros j 0) (get_or ones j 0))) }
{
    array::from_fn(|j| step::grade(line.n, line.t, line.upper, zeros[j], ones[j]))
}

// The king's round: each station's value, from the king's byte to it.
pub fn obey(grade: [u8; 32], y: [u8; 32], heard: [u8; 32]) -> [u8; 32]
    ensures { Each 32 result (λ j. obey (get_or grade j 0) (get_or y j 0) (read_king (get_or heard j 0))) }
{
    array::from_fn(|j| step::obey(grade[j], y[j], ballot::read_king(heard[j])))
}

// Each station's count of rounds with a garbled ballot, after a round that has so many for it.
pub fn note(garbled: [u8; 32], found: [u8; 32]) -> [u8; 32]
    ensures { Each 32 result (λ j. noted (get_or garbled j 0) (get_or found j 0)) }
{
    array::from_fn(|j| step::noted(garbled[j], found[j]))
}
