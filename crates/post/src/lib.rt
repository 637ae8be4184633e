// A round's ballots, written to the log: sender by sender, a byte for each receiver.
#![tactic(auto)]

ghost use Rattle.std.specs.Prelude.{◌≡◌, ◌+◌, ◌*◌, ◌≤◌, ◌<◌, length};
ghost use Rattle.line.specs.Writing.{over};
ghost use Rattle.post.specs.Posted.{same, from_table, Alike, ballot_at, posted};

use line::{Line, marks};

// A good station's byte, the same to all.
fn post_same(log: &mut [u8], at: usize, n: usize, b: u8)
    requires { at + n ≤ length log.old }
    ensures { log.new ≡ over log.old at n (same b) }
{
    slices::fill(&mut log[at..at + n], b);
}

// A bad station's bytes are the table's, unread.
fn post_table(log: &mut [u8], table: &[u8], at: usize, n: usize)
    requires { (at + n ≤ length log.old) × (at + n ≤ length table.now) }
    ensures { log.new ≡ over log.old at n (from_table table.now at) }
{
    log[at..at + n].copy_from_slice(&table[at..at + n]);
}

// Where the good stations end that say what station i says, one after the other from i on.
fn run_end(said: &[u8; 32], marks: u32, i: usize, n: usize) -> usize
    requires { (i < n) × (n ≤ 32) }
    ensures { (i < result) × (result ≤ n) × Alike said.now marks i result }
{
    for k in i + 1..n {
        if marks::is_marked(marks, k as u8) || said[k] != said[i] {
            return k;
        }
    }
    n
}

// All senders' ballots of the round whose bytes start at `start`: good ones that say the same are written at once, since a `for` that writes
// sender by sender costs a rehearsal with none marked a third more instructions.
fn post_all(said: &[u8; 32], log: &mut [u8], table: &[u8], marks: u32, start: usize, n: usize)
    requires { (n ≤ 32) × (start + n * n ≤ length log.old) × (start + n * n ≤ length table.now) }
    ensures { log.new ≡ over log.old start (n * n) (ballot_at said.now table.now marks start n) }
{
    let mut i = 0;
    while i < n {
        let at = start + i * n;
        if marks::is_marked(marks, i as u8) {
            post_table(log, table, at, n);
            i += 1;
        } else {
            let to = run_end(said, marks, i, n);
            post_same(log, at, (to - i) * n, said[i]);
            i = to;
        }
    }
}

// The round whose bytes start at `start`, where the steps make station i send the byte i of `said`. Nothing is written where it has no room in the log or the table.
pub fn round(line: Line, marks: u32, said: &[u8; 32], table: &[u8], log: &mut [u8], start: usize)
    ensures { log.new ≡ posted line.n marks said.now table.now log.old start }
{
    if line.has_round(start, log.len()) && line.has_round(start, table.len()) {
        post_all(said, log, table, marks, start, usize::from(line.n));
    }
}
