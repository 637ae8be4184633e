// What all receivers get in a round: a sender's bytes to all stand side by side in the log, those to one receiver are a column, and all columns are counted at once.
#![tactic(auto)]

ghost use Rattle.std.specs.Prelude.{◌≡◌, ◌+◌, ◌≤◌, length};
ghost use Rattle.line.specs.Writing.{Each};
ghost use Rattle.column.specs.Column.{AtMost, each_of, hit, more, count_of, sent_by, block_at};

use line::Line;
use std::array;

// The first 32 bytes, 0 past the end: a block of a fixed length is read and counted at once. Those beyond a sender's n are of no receiver.
fn row(bytes: &[u8]) -> [u8; 32]
    ensures { Each 32 result (each_of bytes.now) }
{
    match bytes.first_chunk() {
        Some(row) => *row,
        None => {
            let mut row = [0; 32];
            row[..bytes.len()].copy_from_slice(bytes);
            row
        }
    }
}

// One more where the byte is v.
#[tactic(auto, unfolding(crate::specs::Column::hit))]
fn one_more(count: u8, b: u8, v: u8) -> u8
    requires { count ≤ 254 }
    ensures { result ≡ count + hit b v }
{
    count + u8::from(b == v)
}

// One more at each place where the row's byte is the one wanted there.
fn add_row(counts: &[u8; 32], row: &[u8; 32], wanted: &[u8; 32]) -> [u8; 32]
    requires { AtMost 254 32 counts.now }
    ensures { Each 32 result (more counts.now (each_of row.now) (each_of wanted.now)) }
{
    array::from_fn(|j| one_more(counts[j], row[j], wanted[j]))
}

// How many bytes to each receiver are the one wanted of it, in the round that starts at `start`; 0 where the bytes have no such round. Places beyond n are of no
// receiver, and open.
pub fn count(line: Line, bytes: &[u8], start: usize, wanted: &[u8; 32]) -> [u8; 32]
    ensures { Each line.n result (count_of line.n bytes.now start (each_of wanted.now)) }
{
    let mut counts = [0; 32];
    if line.has_round(start, bytes.len()) {
        let n = usize::from(line.n);
        for i in 0..n {
            counts = add_row(&counts, &row(&bytes[start + i * n..]), wanted);
        }
    }
    counts
}

// The bytes of station i to each receiver, in the round that starts at `start`; 0 where the bytes have no such round or the line no such station. Places beyond n
// are of no receiver, and open.
pub fn sent_by(line: Line, bytes: &[u8], start: usize, i: u8) -> [u8; 32]
    ensures { Each line.n result (sent_by line.n bytes.now start i) }
{
    if i < line.n && line.has_round(start, bytes.len()) {
        row(&bytes[start + usize::from(i) * usize::from(line.n)..])
    } else {
        [0; 32]
    }
}

// The 32 bytes from a place on; 0 where there are fewer.
pub fn block(bytes: &[u8], at: usize) -> [u8; 32]
    ensures { Each 32 result (block_at bytes.now at) }
{
    match bytes.get(at..) {
        Some(rest) if rest.len() >= 32 => row(rest),
        _ => [0; 32],
    }
}
