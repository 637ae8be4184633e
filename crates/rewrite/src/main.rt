// Reads a run sheet on standard input and writes its normal form to standard output; of a sheet that is refused, the line that agree writes.
#![tactic(auto)]

ghost use Rattle.std.specs.Prelude.{◌≡◌, ◌+◌, ◌≤◌, min, length, take};
ghost use Rattle.std.specs.Counts.{IsPrefixLen};
ghost use Rattle.line.specs.Width.{largest_tables};
ghost use Rattle.refusal.specs.Cause.{no_cause};
ghost use Rattle.layout.specs.Layout.{longest_sheet, tables_wanted};
ghost use Rattle.writer.specs.Sheet.{sheet};
ghost use Rattle.writer.specs.Judgement.{before_buffer};
ghost use Rattle.rewrite.specs.Output.{Rewritten};

use line::Line;
use std::io;

// The longest sheet.
const LONGEST: usize = layout::LONGEST_SHEET;

// Writes a sheet that nothing refuses at the start of the output.
fn write(header: &[u8], table: &[u8], out: &mut [u8]) -> usize
    requires { (before_buffer header.now table.now ≡ no_cause) × (length out.old ≡ longest_sheet) }
    ensures { (result ≤ length out.new) × (take result out.new ≡ sheet header.now table.now) }
{
    match writer::needed(header, table) {
        Ok(len) => {
            let _ = writer::write(header, table, &mut out[..len]);
            len
        }
        Err(_) => 0,
    }
}

// Reads a sheet into the tables of all bits, and writes what was read.
fn rewrite(sheet: &[u8], table: &mut [u8], out: &mut [u8]) -> usize
    requires { (length table.old ≡ min (tables_wanted sheet.now) largest_tables) × (length out.old ≡ longest_sheet) }
    ensures { Rewritten sheet.now out.new result }
{
    match reader::read(sheet, table) {
        Ok(_) => write(&sheet[..12], table, out),
        Err(cause) => listing_lines::of_refusal(out, cause.number()),
    }
}

// The whole normal form of a sheet, or its refusal's line, at the start of the output: no tables and no sheet are too long for the buffers.
fn rewritten(sheet: &[u8], out: &mut [u8; LONGEST]) -> usize
    ensures { Rewritten sheet.now out.new result × IsPrefixLen result out.new }
{
    let mut table = [255; Line::LARGEST_TABLES];
    let len = slices::shorter(layout::tables_len(sheet), Line::LARGEST_TABLES);
    rewrite(sheet, &mut table[..len], out)
}

// Writes a sheet's normal form to standard output.
fn put(rt: &(impl Print + Eprint), sheet: &[u8]) {
    let mut out = [0u8; LONGEST];
    let n = rewritten(sheet, &mut out);
    if rt.write_all(&out[..n]).is_err() {
        let _ = rt.eprintln("rewrite: the sheet could not be written");
    }
}

// Reads a sheet, into a buffer of one byte more than the longest has: that byte tells that an input is longer.
fn read(rt: &(impl io::Input + Print + Eprint), sheet: &mut [u8])
    requires { length sheet.old ≡ longest_sheet + 1 }
{
    if let Some(n) = input::standard(rt, "rewrite", sheet) {
        put(rt, &sheet[..n]);
    }
}

fn main(rt: HostRuntime) {
    let mut sheet = [0u8; layout::LONGEST_SHEET + 1];
    read(&rt, &mut sheet);
}
