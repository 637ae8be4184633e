// The calls on whole lines for other languages: numbers and byte slices, and the documents' number of the refusal as the answer, 0 where nothing is
// refused; of the writer's calls and the checker it stands in the highest byte, above what the call gives. Each promises what the call that it passes on
// promises.
#![tactic(auto)]

ghost use Rattle.std.specs.Prelude.{◌≡◌};
ghost use Rattle.recipe.specs.Promise.{number_run_of};
ghost use Rattle.checker.specs.Promise.{logged};
ghost use Rattle.exports.specs.Numbers.{ReadNumber, ReadBitNumber, NeedsWord, WritesWord, GeneratesNumber, RehearsedNumber, ExchangedNumber, ChecksWord};

use header::Header;
use line::Line;
use refusal::cause;

// Reads a run sheet into the run tables of all bits.
#[unsafe(no_mangle)]
pub extern "C" fn vembopu_read(sheet: &[u8], table: &mut [u8]) -> u8
    ensures { ReadNumber sheet.now table.old table.new result }
{
    cause::code(reader::read(sheet, table))
}

// Reads one bit's run table of a run sheet.
#[unsafe(no_mangle)]
pub extern "C" fn vembopu_read_bit(sheet: &[u8], bit: u8, table: &mut [u8]) -> u8
    ensures { ReadBitNumber sheet.now bit table.old table.new result }
{
    cause::code(reader::read_bit(sheet, bit, table))
}

// How many bytes the sheet of a header and its run tables needs.
#[unsafe(no_mangle)]
pub extern "C" fn vembopu_sheet_len(header: &[u8], table: &[u8]) -> u64
    ensures { NeedsWord header.now table.now result }
{
    let needed = writer::needed(header, table);
    cause::answer(cause::code(needed), needed.unwrap_or(0) as u64)
}

// Writes the sheet of a header and its run tables.
#[unsafe(no_mangle)]
pub extern "C" fn vembopu_write(header: &[u8], table: &[u8], sheet: &mut [u8]) -> u64
    ensures { WritesWord header.now table.now sheet.old sheet.new result }
{
    let written = writer::write(header, table, sheet);
    cause::answer(cause::code(written), written.unwrap_or(0) as u64)
}

// Generates the run tables of all bits from a header and a seed.
#[unsafe(no_mangle)]
pub extern "C" fn vembopu_generate(header: &[u8], seed: u32, table: &mut [u8]) -> u8
    ensures { GeneratesNumber header.now seed table.old table.new result }
{
    cause::code(generator::generate(header, seed, table))
}

// Rehearses a recipe number of w bits.
#[unsafe(no_mangle)]
pub extern "C" fn vembopu_rehearse(
    n: u8,
    t: u8,
    upper: u8,
    sender: u8,
    value: u8,
    w: u8,
    marks: u32,
    table: &[u8],
    log: &mut [u8],
    outcomes: &mut [u8],
) -> u8
    ensures { RehearsedNumber (number_run_of n t upper sender value w marks table.now) log.old log.new outcomes.old outcomes.new result }
{
    let verdict = recipe::rehearse(
        Header {
            line: Line { n, t, upper },
            sender,
            value,
            w,
            marks,
        },
        table,
        log,
        outcomes,
    );
    cause::code(verdict)
}

// The graded exchange, had alone.
#[unsafe(no_mangle)]
pub extern "C" fn vembopu_exchange(
    n: u8,
    t: u8,
    upper: u8,
    marks: u32,
    inputs: &[u8],
    table: &[u8],
    outcomes: &mut [u8],
) -> u8
    ensures { ExchangedNumber n t upper marks inputs.now table.now outcomes.old outcomes.new result }
{
    let verdict = exchange::exchange(Line { n, t, upper }, marks, inputs, table, outcomes);
    cause::code(verdict)
}

// Which stations broke the rules, by a log and outcomes.
#[unsafe(no_mangle)]
pub extern "C" fn vembopu_check(
    n: u8,
    t: u8,
    upper: u8,
    sender: u8,
    log: &[u8],
    outcomes: &[u8],
) -> u64
    ensures { ChecksWord (logged n t upper sender log.now outcomes.now) result }
{
    let broke = checker::check(Line { n, t, upper }, sender, log, outcomes);
    cause::answer(cause::code(broke), broke.unwrap_or(0) as u64)
}
