// Offer and acceptance for C: on numbers and the row's byte slice, as crate controller has the station's other calls, and the acceptance on a lent station, as crate lent
// has the taking of a row. An offer is a number of 64 bits, and looked at whole.
#![tactic(auto)]

ghost use Rattle.std.specs.Prelude.{◌≡◌};
ghost use Rattle.offer_calls.specs.Words.{OfferAnswer, AcceptAnswer};
ghost use Rattle.offer_calls.specs.Lent.{AcceptsLent};

use controller::words;
use offer::word;
use refusal::cause;
use state::Station;

// The state after the row and, above its five bytes, the ballot of that state; the station stays.
#[unsafe(no_mangle)]
pub extern "C" fn vembopu_offer(
    n: u8,
    t: u8,
    upper: u8,
    sender: u8,
    own: u8,
    state: u64,
    row: &[u8],
) -> u64
    ensures { OfferAnswer n t upper sender own state row.now result }
{
    match offer::show(words::station(n, t, upper, sender, own, state), row) {
        Ok(o) => cause::answer(0, word::of_offer(o)),
        Err(cause) => cause::answer(cause.number(), 0),
    }
}

// The state after the row, if all 64 bits are the offer of this station and row; the state handed in where it is refused.
#[unsafe(no_mangle)]
pub extern "C" fn vembopu_accept(
    n: u8,
    t: u8,
    upper: u8,
    sender: u8,
    own: u8,
    state: u64,
    row: &[u8],
    offer: u64,
) -> u64
    ensures { AcceptAnswer n t upper sender own state row.now offer result }
{
    let s = words::station(n, t, upper, sender, own, state);
    match offer::accept(s, row, word::read(offer)) {
        Ok(next) => cause::answer(0, words::state(next)),
        Err(cause) => cause::answer(cause.number(), words::state(s)),
    }
}

// The lent station takes the row, if all 64 bits are the offer of this station and row. The answer is 0, or the number of the cause by which it is refused;
// nothing is written then.
#[unsafe(no_mangle)]
pub extern "C" fn vembopu_accept_lent(s: &mut Station, row: &[u8], offer: u64) -> u8
    ensures { AcceptsLent s.old row.now offer s.new result }
{
    match offer::accept(*s, row, word::read(offer)) {
        Ok(next) => {
            *s = next;
            0
        }
        Err(cause) => cause.number(),
    }
}
