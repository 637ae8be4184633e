// One round of a whole line: what every station tells is posted to the log, and every station takes what the log has for it. The place i of an array is
// the station counted i from 0; places beyond n are of no station, and open.
#![tactic(auto)]

ghost use Rattle.std.specs.Prelude.{◌≡◌, true, length};
ghost use Rattle.line.specs.Line.{has_round};
ghost use Rattle.round.specs.Round.{all_opened, speaker_within, Taken, Takes, Plays};

use line::Line;
use step::Part;

// The stations' values, z and grades, and how many rounds had a garbled ballot for each.
#[derive(Clone, Copy)]
pub struct Stations {
    pub value: [u8; 32],
    pub z: [u8; 32],
    pub grade: [u8; 32],
    pub garbled: [u8; 32],
}

impl Stations {
    // Before round 1, with these values: no station has a z, a grade or a garbled ballot.
    pub fn opened(value: [u8; 32]) -> Stations
        ensures { result ≡ all_opened value }
    {
        Stations {
            value,
            z: [Line::BLANK; 32],
            grade: [0; 32],
            garbled: [0; 32],
        }
    }
}

// What the stations make of the round that the log has from `start` on: the counts of garbled ballots, and then what the round is for.
fn take_all(
    line: Line,
    sender: u8,
    part: Part,
    senders: u32,
    s: Stations,
    log: &[u8],
    start: usize,
) -> Stations
    requires { (has_round line.n start (length log.now) ≡ true) × (speaker_within line.n sender part ≡ true) }
    ensures { Taken line.n line.t line.upper sender part senders s log.now start result }
{
    let found = garbled::found(line, senders, sender, part, log, start);
    let mut next = s;
    next.garbled = all_stations::note(s.garbled, found);
    match part {
        Part::Sender => {
            let heard = column::sent_by(line, log, start, sender);
            next.value = all_stations::hear(heard);
        }
        Part::First => {
            let equal = column::count(line, log, start, &s.value);
            next.z = all_stations::choose(line, s.value, equal);
        }
        Part::Second => {
            let zeros = column::count(line, log, start, &[0; 32]);
            let ones = column::count(line, log, start, &[1; 32]);
            next.value = all_stations::decide(zeros, ones);
            next.grade = all_stations::grade(line, zeros, ones);
        }
        Part::King(king) => {
            let heard = column::sent_by(line, log, start, king);
            next.value = all_stations::obey(s.grade, s.value, heard);
        }
    }
    next
}

// Whether the one station that speaks is of the line, where only one does.
fn speaker_within(n: u8, sender: u8, part: Part) -> bool
    ensures { result ≡ speaker_within n sender part }
{
    match part {
        Part::Sender => sender < n,
        Part::First | Part::Second => true,
        Part::King(king) => king < n,
    }
}

// The stations after the round that the log has from `start` on, where the ballots of `senders` are looked at for garbled ones. Where the log has no such round,
// or its speaker is none of the n, they stay as they are.
#[tactic(auto, unfolding(crate::specs::Round::takable))]
pub fn take(
    line: Line,
    sender: u8,
    part: Part,
    senders: u32,
    before: Stations,
    log: &[u8],
    start: usize,
) -> Stations
    ensures { Takes line.n line.t line.upper sender part senders before log.now start result }
{
    if speaker_within(line.n, sender, part) && line.has_round(start, log.len()) {
        return take_all(line, sender, part, senders, before, log, start);
    }
    before
}

// The round whose bytes start at `start`: only a marked station's ballots can be garbled. Where it has no room in the log or the table, or its speaker is none of the n, nothing is written and the stations stay
// as they are.
#[tactic(auto, unfolding(crate::specs::Round::playable))]
pub fn play(
    line: Line,
    sender: u8,
    part: Part,
    s: Stations,
    marks: u32,
    table: &[u8],
    log: &mut [u8],
    start: usize,
) -> Stations
    ensures { Plays line.n line.t line.upper sender part s marks table.now start log.old log.new result }
{
    if speaker_within(line.n, sender, part)
        && line.has_round(start, log.len())
        && line.has_round(start, table.len())
    {
        let said = all_stations::tell(sender, part, s.value, s.z);
        post::round(line, marks, &said, table, log, start);
        return take_all(line, sender, part, marks, s, log, start);
    }
    s
}
