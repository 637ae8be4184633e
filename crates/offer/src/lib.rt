// A row looked at before it is taken (document 02, request 8): an offer shows the state that follows and its ballot, an acceptance steps to it.
// Neither has a step of its own: both take the row by `station::advance`, and the ballot is what `station::ballot` tells.
#![tactic(auto)]

ghost use Rattle.std.specs.Prelude.{◌≡◌};
ghost use Rattle.refusal.specs.Cause.{answered};
ghost use Rattle.station.specs.Answers.{ballot_answer};
ghost use Rattle.offer.specs.Offers.{told_byte, offer_told, comparing_verdict, Shows, Accepts};

use line::Line;
use refusal::cause::Cause;
use state::Station;

pub mod word;

// The state that follows, and its ballot. Any bytes may stand in one that is handed in: all six are compared.
#[derive(Clone, Copy, Default, PartialEq, Eq)]
pub struct Offer {
    pub round: u8,
    pub value: u8,
    pub z: u8,
    pub grade: u8,
    pub garbled: u8,
    pub ballot: u8,
}

// What a station tells; 255 where it is refused, as a station that follows is only if it is done.
fn ballot_of(s: Station) -> u8
    ensures { result ≡ told_byte (ballot_answer s) }
{
    station::ballot(s).unwrap_or(Line::SILENCE)
}

// The offer of the station that follows.
#[tactic(auto, unfolding(crate::specs::Offers::with_ballot))]
fn offer_of(next: Station) -> Offer
    ensures { result ≡ offer_told next }
{
    Offer {
        round: next.round,
        value: next.value,
        z: next.z,
        grade: next.grade,
        garbled: next.garbled,
        ballot: ballot_of(next),
    }
}

// The station that follows, if the offer is the one that leads to it.
#[tactic(auto, unfolding(crate::specs::Offers::comparing_verdict, crate::specs::Offers::same, refusal::specs::Cause::refused_if))]
fn compared(following: Station, o: Offer) -> Result<Station, Cause>
    ensures { result ≡ answered (comparing_verdict o (offer_told following)) following }
{
    if o == offer_of(following) {
        Ok(following)
    } else {
        Err(Cause::Offer)
    }
}

// The state after the row, and its ballot; the station stays.
pub fn show(s: Station, row: &[u8]) -> Result<Offer, Cause>
    ensures { Shows s row.now result }
{
    let next = station::advance(s, row)?;
    Ok(offer_of(next))
}

// The station after the row, if the offer is the one that this station and row give.
pub fn accept(s: Station, row: &[u8], o: Offer) -> Result<Station, Cause>
    ensures { Accepts s row.now o result }
{
    compared(station::advance(s, row)?, o)
}
