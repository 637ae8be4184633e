// The rehearsal of a recipe number: a broadcast for each of its bits, one after another, and their outcomes gathered.
#![tactic(auto)]

ghost use Rattle.std.specs.Prelude.{◌≡◌, ◌≤◌, min, length};
ghost use Rattle.line.specs.Width.{bit_of};
ghost use Rattle.rehearsal.specs.Promise.{run_of, run_with};
ghost use Rattle.recipe.specs.Promise.{number_run_with, number_rehearsal_verdict, RehearsedBit, RehearsedRecipe};
ghost use Rattle.recipe.specs.Loops.{Playable, Ran};

use header::Header;
use line::{Line, width};
use refusal::cause::Verdict;

mod gather;

// One byte more than the most outcomes: with so many, outcomes of a wrong length are refused as such.
const PART: usize = Line::LARGEST_OUTCOMES + 1;

// Bit b of a number above bit 0: its outcomes, which come into the part, are gathered with those of the bits below it.
fn bit_beside(
    header: Header,
    b: u8,
    table: &[u8],
    log: &mut [u8],
    part: &mut [u8],
    outcomes: &mut [u8],
) -> Verdict
    requires { (1 ≤ b) × (length part.old ≡ min (length outcomes.old) 129) }
    ensures { RehearsedBit b (run_with header table.now) log.old log.new outcomes.old outcomes.new result }
{
    rehearsal::rehearse(header, table, log, part)?;
    gather::add(b, part, outcomes);
    Ok(())
}

// Bit b of a number, with one table and one log: of bit 0 the outcomes are written, and of a higher one gathered with those of the bits below it, which the
// outcomes hold.
pub fn bit(header: Header, b: u8, table: &[u8], log: &mut [u8], outcomes: &mut [u8]) -> Verdict
    ensures { RehearsedBit b (run_of header.line.n header.line.t header.line.upper header.sender (bit_of header.value b) header.marks table.now) log.old log.new outcomes.old outcomes.new result }
{
    let value = width::bit(header.value, b);
    let one = Header { value, ..header };
    if b == 0 {
        return rehearsal::rehearse(one, table, log, outcomes);
    }
    let mut part = [0u8; PART];
    let m = slices::shorter(outcomes.len(), PART);
    bit_beside(one, b, table, log, &mut part[..m], outcomes)
}

// Causes 15, 2 to 6 and 8, in this order.
#[tactic(auto, unfolding(crate::specs::Promise::number_rehearsal_verdict))]
fn judge(header: Header, tables_len: usize, logs_len: usize, outcomes_len: usize) -> Verdict
    ensures { result ≡ number_rehearsal_verdict header.line.n header.line.t header.line.upper header.sender header.value header.w header.marks tables_len logs_len outcomes_len }
{
    header::number_verdict(header)?;
    header::exact_length(header.line.tables_len(header.w), tables_len)?;
    header::exact_length(header.line.tables_len(header.w), logs_len)?;
    header::exact_length(header.line.outcomes_len(), outcomes_len)
}

// Runs the line once for each bit, and writes the logs and the outcomes.
fn run(header: Header, tables: &[u8], logs: &mut [u8], outcomes: &mut [u8])
    requires { Playable (number_run_with header tables.now) logs.old outcomes.old }
    ensures { Ran (number_run_with header tables.now) logs.new outcomes.new }
{
    let size = header.line.table_len();
    // By places: a proof knows nothing of what is written through `chunks_exact_mut`.
    for b in 0..width::bits(header.w) {
        let at = usize::from(b) * size;
        let _ = bit(
            header,
            b,
            &tables[at..at + size],
            &mut logs[at..at + size],
            outcomes,
        );
    }
}

// The rehearsal of a number of w bits sent by the sender, on a line whose marked stations send what the tables have.
pub fn rehearse(header: Header, tables: &[u8], logs: &mut [u8], outcomes: &mut [u8]) -> Verdict
    ensures { RehearsedRecipe (number_run_with header tables.now) logs.old logs.new outcomes.old outcomes.new result }
{
    judge(header, tables.len(), logs.len(), outcomes.len())?;
    run(header, tables, logs, outcomes);
    Ok(())
}
