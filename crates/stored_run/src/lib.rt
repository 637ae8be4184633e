// One of the stored runs: a sheet is read and rehearsed, and the line of it printed to standard output. tests/runs.py says what the line has.
#![tactic(auto)]

ghost use Rattle.stored_run.specs.Promise.{Leaves};

use header::Header;
use line::Line;
use refusal::cause;

mod print;

// The largest log, where a byte that is left as it was shows, being 7.
fn sevens() -> [u8; Line::LARGEST_TABLE] {
    [7; Line::LARGEST_TABLE]
}

// Rehearses what an accepted sheet says.
fn decide(out: &impl Print, h: Header, table: &[u8], log: &mut [u8], outcomes: &mut [u8]) {
    let verdict = recipe::rehearse(h, table, log, outcomes);
    print::rehearsal(out, cause::code(verdict), log, outcomes);
}

// Lends logs of the tables' length and the outcomes of n stations.
fn accepted(out: &impl Print, h: Header, table: &[u8], lent: u16) {
    print::header(out, h, table);
    let mut log = sevens();
    let a = slices::shorter(lent as usize, log.len());
    let mut outcomes = sevens();
    let b = Line::OUTCOME * (h.line.n as usize);
    decide(out, h, table, &mut log[..a], &mut outcomes[..b]);
}

// Reads the sheet into the lent table, and rehearses it if it is accepted. What is printed no contract can say.
pub fn run<P: Print>(out: &P, k: u64, sheet: &[u8], lent: u16, table: &mut [u8])
    ensures { Leaves sheet.now table.old table.new }
{
    print::name(out, k);
    match reader::read(sheet, table) {
        Ok(h) => accepted(out, h, table, lent),
        Err(cause) => print::refusal(out, cause.number(), table),
    }
}
