// The walk along the chain, on which each record is judged.
ghost use Rattle.std.specs.Prelude.{◌≡◌, ◌≤◌, length};
ghost use Rattle.reader.specs.Loops.{SoundHeader, Taken, Told, Walkable, place_by};

use crate::fate::Walked;
use crate::fill::Placed;
use crate::{fate, seen};
use header::Header;
use layout::Record;
use line::{Line, width};
use refusal::cause::Verdict;

// The most records of a sheet.
pub(crate) const RECORDS: usize = layout::RECORDS;

// Where a record's byte stands in the tables of all bits. What is counted from 1 comes off at the end.
fn place(line: Line, record: Record) -> usize
    requires { (1 ≤ «record».round) × (1 ≤ «record».from) × (1 ≤ «record».to) }
    ensures { result ≡ place_by line «record» }
{
    let n = usize::from(line.n);
    let bit = usize::from(record.bit);
    let round = usize::from(record.round);
    let from = usize::from(record.from);
    let to = usize::from(record.to);
    ((bit * line.rounds() + round) * n + from) * n + to - (n * n + n + 1)
}

// Causes 11, 12 and 13, of a chained record. One that passes is kept with its place.
fn judge(
    header: Header,
    record: Record,
    seen: &mut [u32; seen::WORDS],
    kept: &mut Placed,
) -> Verdict
    requires { SoundHeader header × (length seen.old ≡ 9216) }
    ensures { Taken header «record» seen.old seen.new kept.new result }
{
    let last = header.line.rounds() as u8;
    let bits = width::bits(header.w);
    judgement::numbers_verdict(header.line.n, last, bits, header.marks, record)?;
    let p = place(header.line, record);
    *kept = Placed::new(p, record.ballot);
    seen::look(seen, p)
}

// Walks the chain and judges each record as it comes, up to the first hit.
pub(crate) fn walk(sheet: &[u8], header: Header, kept: &mut [Placed; RECORDS]) -> Walked
    requires { Walkable sheet.now header kept.old }
    ensures { Told sheet.now kept.new result }
{
    let k = layout::records(sheet);
    let mut seen = [0u32; seen::WORDS];
    let mut i = layout::first(sheet);
    for m in 0..k {
        if !layout::is_record(sheet, i) {
            return fate::told(k, i, Ok(m));
        }
        let record = layout::record_at(sheet, i);
        let verdict = judge(header, record, &mut seen, &mut kept[m]);
        i = record.next;
        if let Err(c) = verdict {
            return fate::walk_on(sheet, i, m + 1, c);
        }
    }
    fate::told(k, i, Ok(k))
}
