// Which bytes of the run tables are written to a sheet: how many there are, by bit, then round, from, to.
#![tactic(auto)]

ghost use Rattle.std.specs.Prelude.{◌≡◌, ◌*◌, ◌≤◌, length};
ghost use Rattle.line.specs.Count.{count};
ghost use Rattle.selection.specs.Places.{to_write};
ghost use Rattle.selection.specs.Counted.{counted};
ghost use Rattle.selection.specs.Loops.{Rounds, speaks};
ghost use Rattle.selection.specs.Leaps.{Leaps};

use header::Header;
use line::{Line, marks};

// How many bytes of one sender in a round are not silence. The sum is a byte, so that many are added at once.
fn in_row(row: &[u8]) -> u8
    requires { length row.now ≤ 32 }
    ensures { result ≡ count (length row.now) (speaks row.now) }
{
    let mut k = 0;
    for b in row {
        k += u8::from(*b != Line::SILENCE);
    }
    k
}

// The first marked station of n from each station on, n where none follows, and in a line of more than 32. Stations are counted from 0.
pub fn leaps(marks: u32, n: u8) -> [u8; 33]
    ensures { Leaps marks n result }
{
    let mut to = [n; 33];
    if n <= Line::STATIONS {
        for i in (0..n).rev() {
            let at = usize::from(i);
            let after = to[at + 1];
            to[at] = if marks::is_marked(marks, i) { i } else { after };
        }
    }
    to
}

// How many bytes are to be written in a round: leaping from one marked station to the next, which no range does.
fn in_round(round: &[u8], marks: u32, to: &[u8; 33], n: usize) -> usize
    requires { (n ≤ 32) × (length round.now ≡ n * n) × Leaps marks n to.now }
    ensures { result ≡ count (n * n) (to_write n marks round.now) }
{
    let mut k = 0;
    let mut i = usize::from(to[0]);
    while i < n {
        let at = i * n;
        k += usize::from(in_row(&round[at..at + n]));
        i = usize::from(to[i + 1]);
    }
    k
}

// Of a table of whole rounds: the tables of all bits, one after another, are one.
fn in_table(table: &[u8], marks: u32, n: u8) -> usize
    requires { Rounds n table.now }
    ensures { result ≡ count (length table.now) (to_write n marks table.now) }
{
    let to = leaps(marks, n);
    let n = usize::from(n);
    let mut k = 0;
    for round in table.chunks_exact(n * n) {
        k += in_round(round, marks, &to, n);
    }
    k
}

// How many bytes of the tables of all bits are to be written; none where nobody is marked, where they are not of the header's length, or the line has no station
// or more than 32.
pub fn count(header: Header, table: &[u8]) -> usize
    ensures { result ≡ counted header table.now }
{
    let line = header.line;
    if header.marks == 0
        || line.n == 0
        || Line::STATIONS < line.n
        || table.len() != line.tables_len(header.w)
    {
        return 0;
    }
    in_table(table, header.marks, line.n)
}
