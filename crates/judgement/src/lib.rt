// The judgement of a run sheet: causes 1 to 8 and 15, and 11 and 12 of a record's numbers. Causes 9, 10 and 13 want the chain, which crate reader walks.
#![tactic(auto)]

ghost use Rattle.std.specs.Prelude.{◌≡◌, not, ◌-◌, ◌≤◌};
ghost use Rattle.line.specs.Line.{from_0};
ghost use Rattle.line.specs.Marks.{marked};
ghost use Rattle.refusal.specs.Cause.{Judged};
ghost use Rattle.judgement.specs.Judgement.{ill_formed, verdict_to_6, verdict_to_8, bit_there, bit_to_8};
ghost use Rattle.judgement.specs.Numbers.{out_of_place, numbers_verdict};

use layout::Record;
use line::{Line, marks, width};
use refusal::cause;
use refusal::cause::{Cause, Verdict};

// Cause 1.
fn ill_formed(sheet: &[u8]) -> bool
    ensures { result ≡ ill_formed sheet.now }
{
    let k = layout::records(sheet);
    layout::RECORDS < k || sheet.len() != 12 + 8 * k
}

// Cause 1, then 15, then 2 to 6.
pub fn to_6(sheet: &[u8]) -> Verdict
    ensures { Judged (verdict_to_6 sheet.now) result }
{
    cause::refused_if(ill_formed(sheet), Cause::SheetForm)?;
    let h = layout::header_of(sheet);
    header::number_verdict(h)
}

// Causes 1, 15 and 2 to 8, with a buffer for all bits' tables.
#[tactic(auto, using(refusal::proofs::VerdictLaws::judged), unfolding(crate::specs::Judgement::verdict_to_8))]
pub fn to_8(sheet: &[u8], table_len: usize) -> Verdict
    ensures { Judged (verdict_to_8 sheet.now table_len) result }
{
    to_6(sheet)?;
    header::exact_length(layout::tables_len(sheet), table_len)
}

// Cause 11, of the bit asked for.
fn bit_there(sheet: &[u8], b: u8) -> Verdict
    ensures { result ≡ bit_there sheet.now b }
{
    let h = layout::header_of(sheet);
    cause::refused_if(width::bits(h.w) <= b, Cause::RecordForm)
}

// Causes 1, 15 and 2 to 8, with a buffer for one table, then 11 of the bit asked for.
#[tactic(auto, using(refusal::proofs::VerdictLaws::judged), unfolding(crate::specs::Judgement::bit_to_8))]
pub fn bit_to_8(sheet: &[u8], b: u8, table_len: usize) -> Verdict
    ensures { Judged (bit_to_8 sheet.now b table_len) result }
{
    to_6(sheet)?;
    header::exact_length(layout::table_len(sheet), table_len)?;
    bit_there(sheet, b)
}

// Cause 11, of a record's numbers. `last` is R. A bit below `bits` and a zero byte after it are one comparison of two bytes.
fn out_of_place(n: u8, last: u8, bits: u8, record: Record) -> bool
    ensures { result ≡ out_of_place n last bits «record» }
{
    header::outside(1, last, record.round)
        || header::outside(1, n, record.from)
        || header::outside(1, n, record.to)
        || u16::from(bits) <= u16::from_le_bytes([record.bit, record.rest])
}

// Cause 12, of a station's number.
fn unmarked(marks: u32, from: u8) -> bool
    requires { 1 ≤ from }
    ensures { result ≡ not (marked marks (from_0 from)) }
{
    !marks::is_marked(marks, from - 1)
}

// Causes 11 and 12, of a record's numbers in a line of n stations, `last` rounds and so many bits.
pub fn numbers_verdict(n: u8, last: u8, bits: u8, marks: u32, record: Record) -> Verdict
    ensures { Judged (numbers_verdict n last bits marks «record») result }
{
    cause::refused_if(out_of_place(n, last, bits, record), Cause::RecordForm)?;
    cause::refused_if(unmarked(marks, record.from), Cause::UnmarkedSender)
}
