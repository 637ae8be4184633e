// The station for a bonder's controller in C: numbers, and the row's byte slice. C keeps the five numbers that the station was opened with and
// a state of five bytes. Each answer is 64 bits: the documents' number of the refusal in the highest byte, 0 where nothing is refused, and the values below.
// Crate controller_c has the calls for C.
#![tactic(auto)]

ghost use Rattle.std.specs.Prelude.{◌≡◌};
ghost use Rattle.controller.specs.Words.{station_of, state_word, opened_word, advanced_word, result_word};
ghost use Rattle.controller.specs.Words.{OpenAnswer, BallotAnswer, AdvanceAnswer, ResultAnswer};

use refusal::cause;
use state::Station;

pub mod words;

// A station before round 1: its state.
pub fn vembopu_open(n: u8, t: u8, upper: u8, sender: u8, own: u8, value: u8) -> u64
    ensures { OpenAnswer n t upper sender own value result }
{
    match station::open(n, t, upper, sender, own, value) {
        Ok(opened) => cause::answer(0, words::state(opened)),
        Err(cause) => cause::answer(cause.number(), 0),
    }
}

// The ballot for the current round, 255 if the station doesn't speak.
pub fn vembopu_ballot(n: u8, t: u8, upper: u8, sender: u8, own: u8, state: u64) -> u64
    ensures { BallotAnswer n t upper sender own state result }
{
    let told = station::ballot(words::station(n, t, upper, sender, own, state));
    cause::answer(cause::code(told), told.unwrap_or(0) as u64)
}

// The state after the row received in the current round; the state handed in where it is refused.
pub fn vembopu_advance(n: u8, t: u8, upper: u8, sender: u8, own: u8, state: u64, row: &[u8]) -> u64
    ensures { AdvanceAnswer n t upper sender own state row.now result }
{
    let before = words::station(n, t, upper, sender, own, state);
    match station::advance(before, row) {
        Ok(next) => cause::answer(0, words::state(next)),
        Err(cause) => cause::answer(cause.number(), words::state(before)),
    }
}

// Running, with its round; or done, with value, grade, flag and how many rounds had a garbled ballot.
pub fn vembopu_result(n: u8, t: u8, upper: u8, sender: u8, own: u8, state: u64) -> u64
    ensures { ResultAnswer n t upper sender own state result }
{
    match station::result(words::station(n, t, upper, sender, own, state)) {
        Ok(found) => cause::answer(0, words::result(found)),
        Err(cause) => cause::answer(cause.number(), 0),
    }
}
