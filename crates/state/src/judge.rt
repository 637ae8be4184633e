// What a station's calls refuse: causes 2, 3, 4, 5, 7 and 8, the lowest first.
ghost use Rattle.std.specs.Prelude.{◌≡◌, ◌+◌};
ghost use Rattle.line.specs.Line.{rounds};
ghost use Rattle.refusal.specs.Cause.{Judged, ◌or_else◌};
ghost use Rattle.header.specs.Header.{line_verdict, station_number};
ghost use Rattle.state.specs.Judgement.{foreign_state, is_done, state_verdict, station_verdict, telling_verdict, taking_verdict, opening_verdict};

use crate::Station;
use line::Line;
use refusal::cause;
use refusal::cause::{Cause, Verdict};

// R + 1, the round of a done station. R goes by t alone.
fn last_round(t: u8) -> usize
    ensures { result ≡ rounds t + 1 }
{
    Line { n: 0, t, upper: 0 }.rounds() + 1
}

// A round outside 1 to R + 1, a value above 1, z or grade above 2, or a count of garbled rounds that is not below the round.
#[tactic(auto, unfolding(crate::specs::Judgement::foreign_state, header::specs::Header::outside))]
fn foreign_state(s: Station) -> bool
    ensures { result ≡ foreign_state s.t s.round s.value s.z s.grade s.garbled }
{
    !(1..=last_round(s.t)).contains(&usize::from(s.round))
        || s.value > 1
        || s.z > 2
        || s.grade > 2
        || s.garbled >= s.round
}

#[tactic(auto, unfolding(crate::specs::Judgement::is_done))]
pub fn is_done(t: u8, round: u8) -> bool
    ensures { result ≡ is_done t round }
{
    usize::from(round) == last_round(t)
}

// Cause 7 of a station's state.
fn state(s: Station) -> Verdict
    ensures { result ≡ state_verdict s }
{
    cause::refused_if(foreign_state(s), Cause::StationState)
}

// Causes 2, 3 and 4 of a station's numbers.
fn numbers(n: u8, t: u8, upper: u8, sender: u8, own: u8) -> Verdict
    ensures { result ≡ line_verdict n t upper or_else station_number n sender or_else station_number n own }
{
    header::line_verdict(Line { n, t, upper })?;
    header::station_number(n, sender)?;
    header::station_number(n, own)
}

// Causes 2, 3, 4 and 7 of a station's content.
pub fn station(s: Station) -> Verdict
    ensures { Judged (station_verdict s) result }
{
    numbers(s.n, s.t, s.upper, s.sender, s.own)?;
    state(s)
}

// .. and 7 where a ballot is wanted of a done station.
#[tactic(auto, using(refusal::proofs::VerdictLaws::judged), unfolding(crate::specs::Judgement::telling_verdict))]
pub fn telling(s: Station) -> Verdict
    ensures { Judged (telling_verdict s) result }
{
    station(s)?;
    cause::refused_if(is_done(s.t, s.round), Cause::StationState)
}

// .. and 8 for a row of another length than n.
#[tactic(auto, using(refusal::proofs::VerdictLaws::judged), unfolding(crate::specs::Judgement::taking_verdict))]
pub fn taking(s: Station, row_len: usize) -> Verdict
    ensures { Judged (taking_verdict s row_len) result }
{
    telling(s)?;
    header::exact_length(s.n as usize, row_len)
}

// Causes 2, 3, 4 and 5 of what a station is opened with.
pub fn opening(n: u8, t: u8, upper: u8, sender: u8, own: u8, value: u8) -> Verdict
    ensures { Judged (opening_verdict n t upper sender own value) result }
{
    numbers(n, t, upper, sender, own)?;
    header::bit(value)
}
