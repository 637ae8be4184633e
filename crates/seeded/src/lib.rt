// The rehearsal of a generated run, one bit after another in one table and one log: the state runs on from bit to bit.
#![tactic(auto)]

ghost use Rattle.std.specs.Prelude.{◌≡◌, ◌+◌, ◌<◌};
ghost use Rattle.line.specs.Width.{bits};
ghost use Rattle.seeded.specs.Promise.{seed_verdict, RehearsedSeed};
ghost use Rattle.seeded.specs.Loops.{BitsRun, Ran};

use header::Header;
use line::{Line, width};
use refusal::cause;
use refusal::cause::{Cause, Verdict};

// Causes 15 and 2 to 6 of the header, 16 of the seed, and 8 of the table's, the log's and the outcomes' lengths.
#[tactic(auto, unfolding(crate::specs::Promise::seed_verdict, generator::specs::Judgement::seed_some))]
fn judge(
    header: Header,
    seed: u32,
    table_len: usize,
    log_len: usize,
    outcomes_len: usize,
) -> Verdict
    ensures { result ≡ seed_verdict header seed table_len log_len outcomes_len }
{
    header::number_verdict(header)?;
    cause::refused_if(seed == 0, Cause::Seed)?;
    header::exact_length(header.line.table_len(), table_len)?;
    header::exact_length(header.line.table_len(), log_len)?;
    header::exact_length(header.line.outcomes_len(), outcomes_len)
}

// Bit b: its table is generated from the state that the bits below it left, and rehearsed. The answer is the state that it leaves.
fn next_bit(
    header: Header,
    seed: u32,
    b: u8,
    state: u32,
    table: &mut [u8],
    log: &mut [u8],
    outcomes: &mut [u8],
) -> u32
    requires { BitsRun header seed b state table.old log.old outcomes.old × (b < bits header.w) }
    ensures { BitsRun header seed (b + 1) result table.new log.new outcomes.new }
{
    let left = generator::fill(header.line.n, header.marks, state, table);
    let _ = recipe::bit(header, b, table, log, outcomes);
    left
}

// All bits.
fn run(header: Header, seed: u32, table: &mut [u8], log: &mut [u8], outcomes: &mut [u8])
    requires { BitsRun header seed 0 seed table.old log.old outcomes.old }
    ensures { Ran header seed table.new log.new outcomes.new }
{
    let bits = width::bits(header.w);
    let mut state = seed;
    for b in 0..bits {
        state = next_bit(header, seed, b, state, table, log, outcomes);
    }
}

// The rehearsal of a header's number with the tables that a seed generates.
pub fn rehearse(
    header: Header,
    seed: u32,
    table: &mut [u8],
    log: &mut [u8],
    outcomes: &mut [u8],
) -> Verdict
    ensures { RehearsedSeed header seed table.old table.new log.old log.new outcomes.old outcomes.new result }
{
    judge(header, seed, table.len(), log.len(), outcomes.len())?;
    run(header, seed, table, log, outcomes);
    Ok(())
}
