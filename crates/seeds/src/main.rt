// Reads a run sheet on standard input, keeps its header, and writes the listings of the runs that the seeds 1 to 100 generate to standard output; of a sheet that
// is refused, the line that agree writes.
#![tactic(auto)]

ghost use Rattle.std.specs.Prelude.{◌≡◌, ◌+◌, ◌≤◌, min, length};
ghost use Rattle.std.specs.Counts.{IsPrefixLen};
ghost use Rattle.line.specs.Line.{largest_table};
ghost use Rattle.layout.specs.Layout.{longest_sheet, table_wanted};
ghost use Rattle.text.specs.Laid.{Puts};
ghost use Rattle.listing_lines.specs.Text.{text};
ghost use Rattle.seeded.specs.Listings.{last_seed, seed_lines, listings, Printed};
ghost use Rattle.seeds.specs.Loops.{Seed, Ready, Begun, longest_output};

use header::Header;
use line::Line;
use std::io;
use std::io::{IsTerminal, Stderr};

// A hundred of the longest listings (`ListingsShort` of crate seeded).
const LONGEST: usize = 45700;

// Says on a terminal how many listings are made.
fn progress(terminal: Option<Stderr>, seed: u32) {
    if let Some(screen) = terminal {
        let _ = eprint!(screen; "\rseeds: {seed} of 100");
    }
}

// Wipes what was said.
fn wipe(terminal: Option<Stderr>) {
    if let Some(screen) = terminal {
        let _ = screen.eprint("\r                 \r");
    }
}

// The listing of one seed's run, from a place on.
fn list_seed(
    header: Header,
    seed: u32,
    table: &mut [u8],
    log: &mut [u8],
    outcomes: &mut [u8],
    out: &mut [u8],
    at: usize,
) -> usize
    requires { Ready header table.old log.old outcomes.old × Seed seed }
    ensures { Ready header table.new log.new outcomes.new × Puts out.old out.new at (text (seed_lines header seed)) result }
{
    let _ = seeded::rehearse(header, seed, table, log, outcomes);
    listing_lines::of_run(out, at, header, outcomes)
}

// The listings of the seeds 1 to 100, one after another.
fn list_seeds(
    header: Header,
    table: &mut [u8],
    log: &mut [u8],
    outcomes: &mut [u8],
    out: &mut [u8],
    terminal: Option<Stderr>,
) -> usize
    requires { Ready header table.old log.old outcomes.old }
    ensures { Puts out.old out.new 0 (listings header last_seed) result }
{
    let mut at = 0;
    for seed in 1..=100 {
        at = list_seed(header, seed, table, log, outcomes, out, at);
        progress(terminal, seed);
    }
    wipe(terminal);
    at
}

// Those of an accepted sheet's header, with a table and a log for one bit.
fn list_header(
    header: Header,
    sheet: &[u8],
    table: &mut [u8],
    log: &mut [u8],
    out: &mut [u8],
    terminal: Option<Stderr>,
) -> usize
    requires { Begun sheet.now header table.old log.old }
    ensures { Puts out.old out.new 0 (listings header last_seed) result }
{
    let mut outcomes = [0u8; Line::LARGEST_OUTCOMES];
    let m = Line::OUTCOME * (header.line.n as usize);
    list_seeds(header, table, log, &mut outcomes[..m], out, terminal)
}

// Reads a sheet, and lists the runs of its header.
fn list(
    sheet: &[u8],
    table: &mut [u8],
    log: &mut [u8],
    out: &mut [u8],
    terminal: Option<Stderr>,
) -> usize
    requires { (length table.old ≡ min (table_wanted sheet.now) largest_table) × (length log.old ≡ length table.old) × (length out.old ≡ longest_output) }
    ensures { Printed sheet.now out.new result }
{
    match reader::read_bit(sheet, 0, table) {
        Ok(header) => list_header(header, sheet, table, log, out, terminal),
        Err(cause) => listing_lines::of_refusal(out, cause.number()),
    }
}

// All that is printed of a sheet, at the start of the output: one table and one log serve all bits of all runs.
fn listed(sheet: &[u8], out: &mut [u8; LONGEST], terminal: Option<Stderr>) -> usize
    ensures { Printed sheet.now out.new result × IsPrefixLen result out.new }
{
    let mut table = [255; Line::LARGEST_TABLE];
    let mut log = [255; Line::LARGEST_TABLE];
    let len = slices::shorter(layout::table_len(sheet), Line::LARGEST_TABLE);
    list(sheet, &mut table[..len], &mut log[..len], out, terminal)
}

// Writes it to standard output.
fn put(rt: &(impl Print + Eprint), terminal: Option<Stderr>, sheet: &[u8]) {
    let mut out = [0u8; LONGEST];
    let n = listed(sheet, &mut out, terminal);
    if rt.write_all(&out[..n]).is_err() {
        let _ = rt.eprintln("seeds: the listings could not be written");
    }
}

// Reads a sheet, into a buffer of one byte more than the longest has: that byte tells that an input is longer.
fn read(rt: &(impl io::Input + Print + Eprint), terminal: Option<Stderr>, sheet: &mut [u8])
    requires { length sheet.old ≡ longest_sheet + 1 }
{
    if let Some(n) = input::standard(rt, "seeds", sheet) {
        put(rt, terminal, &sheet[..n]);
    }
}

// Standard error, where that is a terminal.
fn terminal(screen: Stderr) -> Option<Stderr> {
    screen.is_terminal().then_some(screen)
}

fn main(rt: HostRuntime) {
    let mut sheet = [0u8; layout::LONGEST_SHEET + 1];
    read(&rt, terminal(rt.stderr()), &mut sheet);
}
