// One station as it runs in a bonder, by value: opened, asked for its ballot, handed the row that it received, asked for its result.
#![tactic(auto)]

ghost use Rattle.station.specs.Answers.{Opens, Tells, Advances, Results};

use refusal::cause::Cause;
use state::{Station, judge};

mod act;
mod tally;

// Where a station is: running with its round, or done.
#[derive(Clone, Copy)]
pub enum StationResult {
    Running(u8),
    Done {
        value: u8,
        grade: u8,
        flag: u8,
        garbled: u8,
    },
}

// A station with its number, before round 1. The value matters only at the sender, and is judged at every station.
#[tactic(auto, using(crate::proofs::AnswerLaws::opens))]
pub fn open(n: u8, t: u8, upper: u8, sender: u8, own: u8, value: u8) -> Result<Station, Cause>
    ensures { Opens n t upper sender own value result }
{
    judge::opening(n, t, upper, sender, own, value)?;
    Ok(act::opened(n, t, upper, sender, own, value))
}

// The ballot for the current round, 255 if the station doesn't speak.
#[tactic(auto, using(crate::proofs::AnswerLaws::tells))]
pub fn ballot(s: Station) -> Result<u8, Cause>
    ensures { Tells s result }
{
    judge::telling(s)?;
    Ok(act::tell(s))
}

// The station after the row that it received in the current round.
#[tactic(auto, using(crate::proofs::AnswerLaws::advances))]
pub fn advance(s: Station, row: &[u8]) -> Result<Station, Cause>
    ensures { Advances s row.now result }
{
    judge::taking(s, row.len())?;
    Ok(act::take(s, row))
}

// Running with its round, or done with value, grade, flag and how many rounds had a garbled ballot.
#[tactic(auto, using(crate::proofs::AnswerLaws::results))]
pub fn result(s: Station) -> Result<StationResult, Cause>
    ensures { Results s result }
{
    judge::station(s)?;
    Ok(act::result(s))
}
