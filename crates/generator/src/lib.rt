// The generator of noisy runs: a header of any bytes and a seed give run tables, one for each bit, in a lent buffer, or the one refusal.
#![tactic(auto)]

ghost use Rattle.std.specs.Prelude.{◌≡◌};
ghost use Rattle.generator.specs.Judgement.{generate_verdict};
ghost use Rattle.generator.specs.Promise.{Fills, Generates};

use refusal::cause;
use refusal::cause::{Cause, Verdict};

mod rows;

// Draws the bytes of a line of n stations from place 0 on, all of the table, which has whole rows of n bytes: the state goes on with each byte of a marked sender,
// and the answer is the last one. A table of any other length, and the state, are left as they were.
pub fn fill(n: u8, marks: u32, state: u32, table: &mut [u8]) -> u32
    ensures { Fills n marks state table.old table.new result }
{
    if n == 0 || table.len() % (n as usize) != 0 {
        return state;
    }
    rows::fill(n, marks, state, table)
}

// Cause 1 of the header's length, 15, 2 to 6 of the header, 16 of the seed, and 8 of the tables' length.
#[tactic(auto, unfolding(crate::specs::Judgement::generate_verdict, crate::specs::Judgement::seed_some, judgement::specs::Judgement::header_length))]
fn judge(header: &[u8], seed: u32, table_len: usize) -> Verdict
    ensures { result ≡ generate_verdict header.now seed table_len }
{
    cause::refused_if(header.len() != 12, Cause::SheetForm)?;
    judgement::to_6(header)?;
    cause::refused_if(seed == 0, Cause::Seed)?;
    header::exact_length(layout::tables_len(header), table_len)
}

// Generates the run tables of all bits from a header and a seed.
pub fn generate(header: &[u8], seed: u32, table: &mut [u8]) -> Verdict
    ensures { Generates header.now seed table.old table.new result }
{
    judge(header, seed, table.len())?;
    let h = layout::header_of(header);
    fill(h.line.n, h.marks, seed, table);
    Ok(())
}
