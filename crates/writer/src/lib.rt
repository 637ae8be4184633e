// The writer of run sheets: a header of any bytes and run tables of any bytes, one for each bit, give a sheet in a lent buffer, or the one refusal.
#![tactic(auto)]

ghost use Rattle.std.specs.Prelude.{◌≡◌, length, Ok};
ghost use Rattle.refusal.specs.Cause.{no_cause};
ghost use Rattle.writer.specs.Judgement.{header_and_table};
ghost use Rattle.writer.specs.Writing.{Needs, Writes};

use refusal::cause;
use refusal::cause::{Cause, Verdict};

mod put;

// Cause 1 of the header's length, 15 right after it, 2 to 6 of the header, and 8 of the tables' length.
fn header_and_table(header: &[u8], table_len: usize) -> Verdict
    ensures { result ≡ header_and_table header.now table_len }
{
    cause::refused_if(header.len() != 12, Cause::SheetForm)?;
    judgement::to_8(header, table_len)
}

// How many bytes the sheet of a header and its tables needs, where no cause before 14 refuses them: cause 14.
fn records_needed(header: &[u8], table: &[u8]) -> Result<usize, Cause>
    requires { header_and_table header.now (length table.now) ≡ no_cause }
    ensures { Needs header.now table.now result }
{
    let k = selection::count(layout::header_of(header), table);
    if layout::RECORDS < k {
        return Err(Cause::TooManyRecords);
    }
    Ok(12 + 8 * k)
}

// How many bytes the sheet of a header and its tables needs, or what writing it is refused by before the buffer is looked at.
pub fn needed(header: &[u8], table: &[u8]) -> Result<usize, Cause>
    ensures { Needs header.now table.now result }
{
    header_and_table(header, table.len())?;
    records_needed(header, table)
}

// Writes a sheet that needs so many bytes: cause 8, of the buffer's length.
fn write_needed(header: &[u8], table: &[u8], sheet: &mut [u8], len: usize) -> Result<usize, Cause>
    requires { Needs header.now table.now (Ok «len») }
    ensures { Writes header.now table.now sheet.old sheet.new result }
{
    if sheet.len() != len {
        return Err(Cause::Length);
    }
    let k = (len - 12) / 8;
    put::sheet(header, table, sheet, k);
    Ok(k)
}

// Writes the sheet of a header and its tables into a lent buffer of the length that it needs: the answer is how many records it has.
pub fn write(header: &[u8], table: &[u8], sheet: &mut [u8]) -> Result<usize, Cause>
    ensures { Writes header.now table.now sheet.old sheet.new result }
{
    let len = needed(header, table)?;
    write_needed(header, table, sheet, len)
}
