// The listing of a run sheet: the sheet is read and rehearsed one bit after another, in one table and one log, and the text written into a lent buffer.
#![tactic(auto)]

ghost use Rattle.std.specs.Prelude.{◌≡◌, ◌+◌, ◌<◌, length};
ghost use Rattle.line.specs.Width.{bits};
ghost use Rattle.listing.specs.Promise.{Lists};
ghost use Rattle.listing.specs.Loops.{BitRehearsed, BitsRun, Begun, ListsRun, ListsWhole};

use header::Header;
use line::{Line, width};

// Rehearses bit b of what was read, whose table is there, and gathers its outcomes with those of the bits below it.
fn rehearse_bit(header: Header, b: u8, table: &[u8], log: &mut [u8], outcomes: &mut [u8])
    ensures { BitRehearsed header b table.now log.old log.new outcomes.old outcomes.new }
{
    let _ = recipe::bit(header, b, table, log, outcomes);
}

// Bit b of an accepted sheet: its table takes the place of the one before.
fn next_bit(
    header: Header,
    sheet: &[u8],
    b: u8,
    table: &mut [u8],
    log: &mut [u8],
    outcomes: &mut [u8],
)
    requires { BitsRun sheet.now header b table.old log.old outcomes.old × (b < bits header.w) }
    ensures { BitsRun sheet.now header (b + 1) table.new log.new outcomes.new }
{
    let _ = reader::read_bit(sheet, b, table);
    rehearse_bit(header, b, table, log, outcomes);
}

// All bits of an accepted sheet, whose first bit was read, one after another in one table and one log.
fn run_bits(header: Header, sheet: &[u8], table: &mut [u8], log: &mut [u8], outcomes: &mut [u8])
    requires { BitsRun sheet.now header 0 table.old log.old outcomes.old }
    ensures { BitsRun sheet.now header (bits header.w) table.new log.new outcomes.new }
{
    let bits = width::bits(header.w);
    rehearse_bit(header, 0, table, log, outcomes);
    for b in 1..bits {
        next_bit(header, sheet, b, table, log, outcomes);
    }
}

// Rehearses an accepted sheet, whose first bit was read, with outcomes of the line's length, and lists them.
fn list_outcomes(
    header: Header,
    sheet: &[u8],
    table: &mut [u8],
    log: &mut [u8],
    outcomes: &mut [u8],
    text: &mut [u8],
) -> usize
    requires { BitsRun sheet.now header 0 table.old log.old outcomes.old }
    ensures { ListsRun sheet.now table.new log.new text.old text.new result }
{
    run_bits(header, sheet, table, log, outcomes);
    listing_lines::of_run(text, 0, header, outcomes)
}

// Rehearses and lists an accepted sheet, whose first bit was read.
fn list_run(
    header: Header,
    sheet: &[u8],
    table: &mut [u8],
    log: &mut [u8],
    text: &mut [u8],
) -> usize
    requires { Begun sheet.now header table.old log.old }
    ensures { ListsRun sheet.now table.new log.new text.old text.new result }
{
    let mut outcomes = [0u8; Line::LARGEST_OUTCOMES];
    let m = Line::OUTCOME * (header.line.n as usize);
    list_outcomes(header, sheet, table, log, &mut outcomes[..m], text)
}

// Reads the sheet's first bit into all of the table, and rehearses with all of the log, which is as long: cause 8 of the one is that of the other, and the reader
// gives it before anything is written.
fn list_whole(sheet: &[u8], table: &mut [u8], log: &mut [u8], text: &mut [u8]) -> usize
    requires { length log.old ≡ length table.old }
    ensures { ListsWhole sheet.now table.old table.new log.old log.new text.old text.new result }
{
    match reader::read_bit(sheet, 0, table) {
        Ok(header) => list_run(header, sheet, table, log, text),
        Err(cause) => listing_lines::of_refusal(text, cause.number()),
    }
}

// Writes the listing of a sheet at the start of the text, as far as the text goes, and answers the listing's length. Fronts of the table and the log, both of
// the line's table length, are lent on and have the last bit's bytes at exit; the rest is left as it was. If one is shorter, so are both fronts, and the sheet is refused by 8 if by nothing before.
pub fn list(sheet: &[u8], table: &mut [u8], log: &mut [u8], text: &mut [u8]) -> usize
    ensures { Lists sheet.now table.old table.new log.old log.new text.old text.new result }
{
    let len = layout::table_len(sheet);
    let a = slices::shorter(len, table.len());
    let b = slices::shorter(a, log.len());
    list_whole(sheet, &mut table[..b], &mut log[..b], text)
}
