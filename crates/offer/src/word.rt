// An offer as a number of 64 bits, for C: six bytes, the lowest first, and nothing above them.
ghost use Rattle.std.specs.Prelude.{◌≡◌};
ghost use Rattle.offer.specs.Words.{offer_word, offer_in};

use crate::Offer;

pub fn of_offer(o: Offer) -> u64
    ensures { result ≡ offer_word o }
{
    u64::from_le_bytes([o.round, o.value, o.z, o.grade, o.garbled, o.ballot, 0, 0])
}

// The offer that any 64 bits are. Those with something above the six bytes are read as zeros: no offer has round 0.
#[tactic(auto, unfolding(crate::specs::Words::offer_in, crate::specs::Words::six_bytes))]
pub fn read(word: u64) -> Offer
    ensures { result ≡ offer_in word }
{
    match word.to_le_bytes() {
        [round, value, z, grade, garbled, ballot, 0, 0] => Offer {
            round,
            value,
            z,
            grade,
            garbled,
            ballot,
        },
        _ => Offer::default(),
    }
}
