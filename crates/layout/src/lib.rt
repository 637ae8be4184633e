// The run sheet byte by byte: the header's numbers, and the records by their indices. Past the sheet's end zeros are read.
#![tactic(auto)]

ghost use Rattle.std.specs.Prelude.{◌≡◌, ◌+◌, ◌*◌, ◌<◌, ◌≤◌, length};
ghost use Rattle.layout.specs.Layout.{most_records, longest_sheet, header, table_wanted, tables_wanted, first, records};
ghost use Rattle.layout.specs.Chain.{is_record};
ghost use Rattle.layout.specs.Numbers.{numbers_from, record_at};

use header::Header;
use line::Line;

// The most records of a sheet, and the bytes of a sheet with so many.
pub const RECORDS: usize = 4096;

pub const LONGEST_SHEET: usize = 12 + 8 * RECORDS;

// These are the definitions' numbers: this holds by its contract alone.
fn constants_agree()
    ensures { (RECORDS ≡ most_records) × (LONGEST_SHEET ≡ longest_sheet) }
{}

// The numbers of a record. `rest` is its last byte.
#[derive(Clone, Copy, Default)]
pub struct Record {
    pub round: u8,
    pub from: u8,
    pub to: u8,
    pub ballot: u8,
    pub next: usize,
    pub bit: u8,
    pub rest: u8,
}

// A two-byte number, of its bytes.
fn two(low: u8, high: u8) -> usize
    ensures { (result ≡ low + 256 * high) × (result < 65536) }
{
    usize::from(u16::from_le_bytes([low, high]))
}

// The header's numbers.
pub fn header_of(sheet: &[u8]) -> Header
    ensures { result ≡ header sheet.now }
{
    let marks = [
        slices::at(sheet, 8),
        slices::at(sheet, 9),
        slices::at(sheet, 10),
        slices::at(sheet, 11),
    ];
    Header {
        line: Line {
            n: slices::at(sheet, 0),
            t: slices::at(sheet, 1),
            upper: slices::at(sheet, 2),
        },
        sender: slices::at(sheet, 3),
        value: slices::at(sheet, 4),
        w: slices::at(sheet, 5),
        marks: u32::from_le_bytes(marks),
    }
}

// The length of one bit's table on the sheet's line.
pub fn table_len(sheet: &[u8]) -> usize
    ensures { result ≡ table_wanted sheet.now }
{
    header_of(sheet).line.table_len()
}

// The length of all bits' tables.
pub fn tables_len(sheet: &[u8]) -> usize
    ensures { result ≡ tables_wanted sheet.now }
{
    let h = header_of(sheet);
    h.line.tables_len(h.w)
}

// The index of the first record, or 0.
pub fn first(sheet: &[u8]) -> usize
    ensures { result ≡ first sheet.now }
{
    two(slices::at(sheet, 6), slices::at(sheet, 7))
}

// k, the number of records that the sheet's length has room for.
pub fn records(sheet: &[u8]) -> usize
    ensures { result ≡ records sheet.now }
{
    sheet.len().saturating_sub(12) / 8
}

// Whether i is the index of a record: from 1 to k.
pub fn is_record(sheet: &[u8], i: usize) -> bool
    ensures { result ≡ is_record sheet.now i }
{
    1 <= i && i <= records(sheet)
}

// The numbers of the record that starts at a byte.
fn numbers(sheet: &[u8], at: usize) -> Record
    requires { at + 8 ≤ length sheet.now }
    ensures { result ≡ numbers_from sheet.now at }
{
    Record {
        round: sheet[at],
        from: sheet[at + 1],
        to: sheet[at + 2],
        ballot: sheet[at + 3],
        next: two(sheet[at + 4], sheet[at + 5]),
        bit: sheet[at + 6],
        rest: sheet[at + 7],
    }
}

// The numbers of the record with index i; zeros where no record has that index.
pub fn record_at(sheet: &[u8], i: usize) -> Record
    ensures { result ≡ record_at sheet.now i }
{
    if is_record(sheet, i) {
        numbers(sheet, 12 + 8 * (i - 1))
    } else {
        Record::default()
    }
}
