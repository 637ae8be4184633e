// The library for C of the station's calls: each is the call of crate controller under the same name, and promises what that one promises.
#![tactic(auto)]

ghost use Rattle.controller.specs.Words.{OpenAnswer, BallotAnswer, AdvanceAnswer, ResultAnswer};

// A station before round 1: its state.
#[unsafe(no_mangle)]
pub extern "C" fn vembopu_open(n: u8, t: u8, upper: u8, sender: u8, own: u8, value: u8) -> u64
    ensures { OpenAnswer n t upper sender own value result }
{
    controller::vembopu_open(n, t, upper, sender, own, value)
}

// The ballot for the current round, 255 if the station doesn't speak.
#[unsafe(no_mangle)]
pub extern "C" fn vembopu_ballot(n: u8, t: u8, upper: u8, sender: u8, own: u8, state: u64) -> u64
    ensures { BallotAnswer n t upper sender own state result }
{
    controller::vembopu_ballot(n, t, upper, sender, own, state)
}

// The state after the row received in the current round; the state handed in where it is refused.
#[unsafe(no_mangle)]
pub extern "C" fn vembopu_advance(
    n: u8,
    t: u8,
    upper: u8,
    sender: u8,
    own: u8,
    state: u64,
    row: &[u8],
) -> u64
    ensures { AdvanceAnswer n t upper sender own state row.now result }
{
    controller::vembopu_advance(n, t, upper, sender, own, state, row)
}

// Running, with its round; or done, with value, grade, flag and how many rounds had a garbled ballot.
#[unsafe(no_mangle)]
pub extern "C" fn vembopu_result(n: u8, t: u8, upper: u8, sender: u8, own: u8, state: u64) -> u64
    ensures { ResultAnswer n t upper sender own state result }
{
    controller::vembopu_result(n, t, upper, sender, own, state)
}
