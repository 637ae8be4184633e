// Reads a run sheet on standard input and writes its listing to standard output.
#![tactic(auto)]

ghost use Rattle.std.specs.Prelude.{◌≡◌, ◌+◌, length};
ghost use Rattle.std.specs.Counts.{IsPrefixLen};
ghost use Rattle.layout.specs.Layout.{longest_sheet};
ghost use Rattle.listing.specs.Promise.{Listed};

use line::Line;
use std::io;

// The longest listing (`ListingShort` of crate listing).
const LONGEST: usize = 457;

// The whole listing of a sheet, at the start of the text: with buffers for the largest table and the longest listing nothing is cut.
fn listed(sheet: &[u8], text: &mut [u8; LONGEST]) -> usize
    ensures { Listed sheet.now text.new result × IsPrefixLen result text.new }
{
    let mut table = [255; Line::LARGEST_TABLE];
    let mut log = [255; Line::LARGEST_TABLE];
    listing::list(sheet, &mut table, &mut log, text)
}

// Lists a sheet.
fn list(rt: &(impl Print + Eprint), sheet: &[u8]) {
    let mut text = [0u8; LONGEST];
    let n = listed(sheet, &mut text);
    if rt.write_all(&text[..n]).is_err() {
        let _ = rt.eprintln("agree: the listing could not be written");
    }
}

// Reads a sheet, into a buffer of one byte more than the longest has: that byte tells that an input is longer.
fn read(rt: &(impl io::Input + Print + Eprint), sheet: &mut [u8])
    requires { length sheet.old ≡ longest_sheet + 1 }
{
    if let Some(n) = input::standard(rt, "agree", sheet) {
        list(rt, &sheet[..n]);
    }
}

fn main(rt: HostRuntime) {
    let mut sheet = [0u8; layout::LONGEST_SHEET + 1];
    read(&rt, &mut sheet);
}
