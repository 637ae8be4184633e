// Bytes put into words and taken out again, the lowest byte first.
ghost use Rattle.std.specs.Prelude.{◌≡◌, Ok};
ghost use Rattle.controller.specs.Words.{word, station_of, state_word, result_word};

use state::Station;
use station::StationResult;

// Five bytes as one number.
pub(crate) fn five(a: u8, b: u8, c: u8, d: u8, e: u8) -> u64
    ensures { result ≡ word a b c d e }
{
    u64::from_le_bytes([a, b, c, d, e, 0, 0, 0])
}

// A station's state.
pub fn state(s: Station) -> u64
    ensures { result ≡ state_word s }
{
    five(s.round, s.value, s.z, s.grade, s.garbled)
}

// Where a station is: 0 and its round where it runs, 1 and its outcome where it is done.
pub(crate) fn result(found: StationResult) -> u64
    ensures { result ≡ result_word (Ok found) }
{
    match found {
        StationResult::Running(r) => five(0, r, 0, 0, 0),
        StationResult::Done {
            value,
            grade,
            flag,
            garbled,
        } => five(1, value, grade, flag, garbled),
    }
}

// The station that these numbers are.
#[tactic(auto, unfolding(crate::specs::Words::station_of))]
pub fn station(n: u8, t: u8, upper: u8, sender: u8, own: u8, state: u64) -> Station
    ensures { result ≡ station_of n t upper sender own state }
{
    let [round, value, z, grade, garbled, ..] = state.to_le_bytes();
    Station {
        n,
        t,
        upper,
        sender,
        own,
        round,
        value,
        z,
        grade,
        garbled,
    }
}
