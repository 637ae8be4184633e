// What an accepted station does. The steps are those of crate step.
ghost use Rattle.std.specs.Prelude.{◌≡◌, ◌<◌};
ghost use Rattle.broadcast.specs.Station.{ballot, next, taken, advance, at};
ghost use Rattle.step.specs.Part.{of_part};
ghost use Rattle.step.specs.Noted.{noted};
ghost use Rattle.step.specs.declared.Part.TheVariants.{Sender, First, Second, King};
ghost use Rattle.station.specs.Automaton.{setup_of, state_of, in_state, opened_station, result_of};
ghost use Rattle.state.specs.Judgement.{Sound, Ready};

use crate::StationResult;
use crate::tally::Tally;
use line::{Line, ballot};
use state::{Station, judge};
use step::Part;

// Before round 1: z is blank and the grade 0 until they are set, and no round is counted.
#[tactic(auto, unfolding(crate::specs::Automaton::opened_station, broadcast::specs::Station::opened))]
pub(crate) fn opened(n: u8, t: u8, upper: u8, sender: u8, own: u8, value: u8) -> Station
    ensures { result ≡ opened_station n t upper sender own value }
{
    Station {
        n,
        t,
        upper,
        sender,
        own,
        round: 1,
        value,
        z: Line::BLANK,
        grade: 0,
        garbled: 0,
    }
}

// The ballot of the current round.
pub(crate) fn tell(s: Station) -> u8
    requires { Sound s }
    ensures { result ≡ ballot (setup_of s) (state_of s) }
{
    let part = step::part_of(s.round);
    step::told(part, s.sender - 1, s.own - 1, s.value, s.z)
}

// The next round, with these; in the round that ends so many of the expected ballots were garbled.
#[tactic(auto, unfolding(broadcast::specs::Station::next))]
fn next(s: Station, value: u8, z: u8, grade: u8, found: u8) -> Station
    requires { s.round < 255 }
    ensures { result ≡ in_state s (next (state_of s) value z grade (noted s.garbled found)) }
{
    Station {
        round: s.round + 1,
        value,
        z,
        grade,
        garbled: step::noted(s.garbled, found),
        ..s
    }
}

// Round 1: x is what is read of the sender.
fn take_sender(s: Station, row: &[u8]) -> Station
    requires { Ready s row.now }
    ensures { result ≡ in_state s (taken (setup_of s) (state_of s) (at row.now) (of_part Sender)) }
{
    let heard = ballot::read_sender(row[usize::from(s.sender - 1)]);
    next(s, step::x(heard), s.z, s.grade, heard.garbled())
}

// The first round of an exchange: z.
fn take_first(s: Station, row: &[u8]) -> Station
    requires { Ready s row.now }
    ensures { result ≡ in_state s (taken (setup_of s) (state_of s) (at row.now) (of_part First)) }
{
    let tally = Tally::of(row, ballot::read_first);
    let z = step::z(s.n, s.upper, s.value, tally.votes(s.value));
    next(s, s.value, z, s.grade, tally.garbled)
}

// The second round of an exchange: y and the grade.
fn take_second(s: Station, row: &[u8]) -> Station
    requires { Ready s row.now }
    ensures { result ≡ in_state s (taken (setup_of s) (state_of s) (at row.now) (of_part Second)) }
{
    let tally = Tally::of(row, ballot::read_second);
    let y = step::y(tally.zeros, tally.ones);
    let grade = step::grade(s.n, s.t, s.upper, tally.zeros, tally.ones);
    next(s, y, s.z, grade, tally.garbled)
}

// The king's round.
fn take_king(s: Station, row: &[u8], king: u8) -> Station
    requires { (Ready s row.now) × (king < s.n) }
    ensures { result ≡ in_state s (taken (setup_of s) (state_of s) (at row.now) (of_part (King king))) }
{
    let heard = ballot::read_king(row[usize::from(king)]);
    let x = step::obey(s.grade, s.value, heard);
    next(s, x, s.z, s.grade, heard.garbled())
}

// The station after a row.
pub(crate) fn take(s: Station, row: &[u8]) -> Station
    requires { Ready s row.now }
    ensures { result ≡ in_state s (advance (setup_of s) (state_of s) (at row.now)) }
{
    match step::part_of(s.round) {
        Part::Sender => take_sender(s, row),
        Part::First => take_first(s, row),
        Part::Second => take_second(s, row),
        Part::King(king) => take_king(s, row, king),
    }
}

// The result.
#[tactic(auto, unfolding(crate::specs::Automaton::result_of, broadcast::specs::Station::result, state::specs::Judgement::is_done))]
pub(crate) fn result(s: Station) -> StationResult
    ensures { result ≡ result_of s }
{
    if judge::is_done(s.t, s.round) {
        StationResult::Done {
            value: s.value,
            grade: s.grade,
            flag: step::flag(s.grade),
            garbled: s.garbled,
        }
    } else {
        StationResult::Running(s.round)
    }
}
