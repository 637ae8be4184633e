// The sheet's bytes, written once nothing is left to refuse: the header, then the records by bit, then round, from, to.
ghost use Rattle.std.specs.Prelude.{◌≡◌, ◌+◌, ◌*◌, ◌≤◌, ◌<◌, length, eqb, if◌then◌else◌};
ghost use Rattle.line.specs.Count.{count};
ghost use Rattle.line.specs.Line.{table_length, place};
ghost use Rattle.selection.specs.Places.{to_write, how_many};
ghost use Rattle.selection.specs.Leaps.{Leaps};
ghost use Rattle.selection.specs.Loops.{spoken};
ghost use Rattle.writer.specs.Loops.{start_of, put_at, put_row_at, spoken_in, Room, Goes_on, Ready, OfRound, sheet_of, Unrefused};

use header::Header;
use line::{Line, width};

// A round of a bit's broadcast: the bit from 0 on, the round from 1 on.
#[derive(Clone, Copy)]
struct Turn {
    bit: u8,
    round: u8,
}

impl Turn {
    // Where the round's bytes start in the tables of all bits.
    fn start(self, line: Line) -> usize
        requires { 1 ≤ self.round }
        ensures { result ≡ self.bit * table_length line.n line.t + place line.n self.round 0 0 }
    {
        let n = usize::from(line.n);
        usize::from(self.bit) * line.table_len() + usize::from(self.round - 1) * n * n
    }
}

// What follows record m, which starts at `at`, where the last one starts at `last`.
fn next_index(at: usize, last: usize, m: usize) -> u16
    requires { m < 65535 }
    ensures { result ≡ (if eqb at last then 0 else m + 1) }
{
    if at == last { 0 } else { (m + 1) as u16 }
}

// The record of one byte, after m others; none where it is silence. The answer is how many there are then.
fn put_byte(sheet: &mut [u8], m: usize, turn: Turn, from: u8, to: u8, ballot: u8) -> usize
    requires { Room sheet.old m (spoken ballot) }
    ensures { (result ≡ m + spoken ballot) × (sheet.new ≡ put_at sheet.old m turn from to ballot) }
{
    if ballot == Line::SILENCE {
        return m;
    }
    let at = 12 + 8 * m;
    let next = next_index(at, sheet.len() - 8, m + 1);
    record::put(sheet, at, turn.round, from, to, ballot, next, turn.bit);
    m + 1
}

// The records of one marked sender's bytes in a round.
fn put_row(row: &[u8], sheet: &mut [u8], turn: Turn, from: u8, m: usize) -> usize
    requires { (length row.now ≤ 32) × Room sheet.old m (spoken_in row.now (length row.now)) }
    ensures { (result ≡ m + spoken_in row.now (length row.now)) × (sheet.new ≡ put_row_at sheet.old m turn from row.now (length row.now)) }
{
    let mut done = m;
    for (j, ballot) in row.iter().enumerate() {
        done = put_byte(sheet, done, turn, from, j as u8 + 1, *ballot);
    }
    done
}

// Those of a round: from one marked station to the next, which no range does.
fn put_round(
    h: Header,
    table: &[u8],
    sheet: &mut [u8],
    to: &[u8; 33],
    turn: Turn,
    m: usize,
) -> usize
    requires { Ready h table.now sheet.old (start_of h turn) m × OfRound h turn × Leaps h.marks h.line.n to.now }
    ensures { (result ≡ count (start_of h turn + h.line.n * h.line.n) (to_write h.line.n h.marks table.now)) × Goes_on h table.now sheet.old m sheet.new result }
{
    let n = usize::from(h.line.n);
    let start = turn.start(h.line);
    let mut done = m;
    let mut i = to[0];
    while i < h.line.n {
        let at = start + usize::from(i) * n;
        done = put_row(&table[at..at + n], sheet, turn, i + 1, done);
        i = to[usize::from(i) + 1];
    }
    done
}

// All k records: once they are there, the rest of the tables has none.
fn put_records(h: Header, table: &[u8], sheet: &mut [u8], k: usize)
    requires { Ready h table.now sheet.old 0 0 × (k ≡ how_many h table.now) }
    ensures { Goes_on h table.now sheet.old 0 sheet.new k }
{
    let to = selection::leaps(h.marks, h.line.n);
    let last = h.line.rounds() as u8;
    let mut done = 0;
    for bit in 0..width::bits(h.w) {
        for round in 1..=last {
            if done == k {
                return;
            }
            done = put_round(h, table, sheet, &to, Turn { bit, round }, done);
        }
    }
}

// The whole sheet, of k records.
pub(crate) fn sheet(header: &[u8], table: &[u8], sheet: &mut [u8], k: usize)
    requires { Unrefused header.now table.now sheet.old k }
    ensures { sheet.new ≡ sheet_of header.now table.now }
{
    record::put_header(header, sheet, k);
    // A sheet without records needs no leaps.
    if k == 0 {
        return;
    }
    put_records(layout::header_of(header), table, sheet, k);
}
