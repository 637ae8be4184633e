// What the stations send in a round, beside what they should: a sender's bytes to all stand side by side in the log.
#![tactic(auto)]

ghost use Rattle.std.specs.Prelude.{◌≡◌, ◌≤◌, ◌<◌, true, eqb, length, get_or};
ghost use Rattle.line.specs.Count.{all};
ghost use Rattle.line.specs.Line.{has_round};
ghost use Rattle.line.specs.Writing.{Each};
ghost use Rattle.compare.specs.Compare.{sends, kept_on};

use line::Line;

// Whether all of a row is b. Blocks of a fixed length are the quickest, so that from 16 bytes on the first 16 and the last 16 are looked at.
fn all_are(row: &[u8], b: u8) -> bool
    requires { length row.now ≤ 32 }
    ensures { result ≡ all (length row.now) (λ j. eqb (get_or row.now j 0) b) }
{
    let (Some(first), Some(last)) = (row.first_chunk::<16>(), row.last_chunk::<16>()) else {
        return row.iter().all(|x| *x == b);
    };
    *first == [b; 16] && *last == [b; 16]
}

// Whether station i sends b to every receiver in the round that starts at `start`.
#[tactic(auto, using(crate::proofs::CompareLaws::row_there, crate::proofs::CompareLaws::row_long))]
fn sends(line: Line, bytes: &[u8], start: usize, i: usize, b: u8) -> bool
    requires { (has_round line.n start (length bytes.now) ≡ true) × (i < line.n) }
    ensures { result ≡ sends bytes.now start line.n i b }
{
    let n = line.n as usize;
    let at = start + i * n;
    all_are(&bytes[at..at + n], b)
}

// Where the byte i of `said` is what station i should send: what stands in `kept`, if it sends this to every receiver in the round that starts at `start`,
// otherwise 0; 0 too where the bytes have no such round. Places beyond n are of no station, and open.
pub fn kept_on(line: Line, said: &[u8; 32], bytes: &[u8], start: usize, kept: [u8; 32]) -> [u8; 32]
    ensures { Each line.n result (kept_on line.n said.now bytes.now start kept) }
{
    if !line.has_round(start, bytes.len()) {
        return [0; 32];
    }
    // A loop over the stations there are: `array::from_fn` goes over all 32, a third more instructions for a log of four stations.
    let mut next = [0; 32];
    for i in 0..line.n as usize {
        let same = sends(line, bytes, start, i, said[i]);
        next[i] = if same { kept[i] } else { 0 };
    }
    next
}
