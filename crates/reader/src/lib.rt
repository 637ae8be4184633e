// The reader of run sheets: a sheet of any bytes and a lent buffer of any length give the header's numbers and the tables, or the one refusal.
#![tactic(auto)]

ghost use Rattle.std.specs.Prelude.{length};
ghost use Rattle.reader.specs.Reading.{Reads, ReadsBit};
ghost use Rattle.reader.specs.Loops.{Opened, ReadsPart};

use crate::fill::Placed;
use header::Header;
use refusal::cause::Cause;

mod fate;
mod fill;
mod seen;
mod walk;

// A sheet that the causes before the chain's let through: the whole chain is walked and each of its records judged before the first byte is written. The table
// is the part of all bits' tables that begins at the place `start`; where it is all of them, every place is in it.
fn read_chain(sheet: &[u8], start: usize, table: &mut [u8]) -> Result<Header, Cause>
    requires { Opened sheet.now start (length table.old) }
    ensures { ReadsPart sheet.now start table.old table.new result }
{
    let header = layout::header_of(sheet);
    let mut kept = [Placed::NONE; walk::RECORDS];
    let m = walk::walk(sheet, header, &mut kept)?;
    fill::fill(&kept[..m], start, table);
    Ok(header)
}

// Reads a run sheet into the run tables of all bits.
pub fn read(sheet: &[u8], table: &mut [u8]) -> Result<Header, Cause>
    ensures { Reads sheet.now table.old table.new result }
{
    judgement::to_8(sheet, table.len())?;
    read_chain(sheet, 0, table)
}

// Reads one bit's run table of a run sheet, all of which is judged.
pub fn read_bit(sheet: &[u8], b: u8, table: &mut [u8]) -> Result<Header, Cause>
    ensures { ReadsBit sheet.now b table.old table.new result }
{
    judgement::bit_to_8(sheet, b, table.len())?;
    read_chain(sheet, (b as usize) * table.len(), table)
}
