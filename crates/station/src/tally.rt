// What a row has in a round of an exchange: how many ballots count for each value, and how many are garbled. An accepted row has at most 32 ballots, so that a
// count fits a byte.
ghost use Rattle.std.specs.Prelude.{◌≡◌, ◌≤◌, ℕ, eqb, length, if◌then◌else◌};
ghost use Rattle.line.specs.declared.ballot.Ballot.{Ballot};
ghost use Rattle.station.specs.Tallies.{Reads, Counts};

use line::Line;
use line::ballot::Ballot;

#[derive(Clone, Copy, Default)]
pub(crate) struct Tally {
    pub zeros: u8,
    pub ones: u8,
    pub garbled: u8,
}

impl Tally {
    // Of a row whose ballots are read so. A loop, since a sum for each of the three would take three passes.
    pub(crate) fn of<F: Fn(u8) -> Ballot>(row: &[u8], read: F) -> Tally
        requires few { length row.now ≤ 32 }
        requires reader { F.IsAlwaysCallable read }
        ensures { (reading : ℕ → Ballot) → Reads (F.post read) reading → Counts reading row.now result }
    {
        let mut tally = Tally::default();
        for b in row {
            let ballot = read(*b);
            let bit = ballot.bit_or(Line::BLANK);
            tally.zeros += u8::from(bit == 0);
            tally.ones += u8::from(bit == 1);
            tally.garbled += ballot.garbled();
        }
        tally
    }

    // How many count for v, a bit.
    pub(crate) fn votes(self, v: u8) -> u8
        ensures { result ≡ (if eqb v 0 then self.zeros else self.ones) }
    {
        if v == 0 { self.zeros } else { self.ones }
    }
}
