// The graded exchange of a whole line, had alone.
#![tactic(auto)]

ghost use Rattle.std.specs.Prelude.{◌≡◌, not, ◌&&◌, ◌≤◌, ltb, length};
ghost use Rattle.line.specs.Line.{exchange_length, outcomes_length};
ghost use Rattle.line.specs.Writing.{Each};
ghost use Rattle.refusal.specs.Cause.{◌or_else◌};
ghost use Rattle.header.specs.Header.{exact_length};
ghost use Rattle.broadcast.specs.Bytes.{exchange_outcomes};
ghost use Rattle.broadcast.specs.Station.{at};
ghost use Rattle.exchange.specs.Promise.{foreign_inputs, inputs_verdict, exchange_verdict, Exchanged};
ghost use Rattle.exchange.specs.Rounds.{Bits, Ready, Graded};

use line::{Line, marks};
use refusal::cause;
use refusal::cause::{Cause, Verdict};
use round::Stations;
use step::Part;

// How many of the inputs are an unmarked station's and not 0 or 1. No line has more than 255 stations.
fn count_foreign(marks: u32, inputs: &[u8]) -> usize
    requires { length inputs.now ≤ 255 }
    ensures { result ≡ foreign_inputs (length inputs.now) marks inputs.now }
{
    inputs
        .iter()
        .enumerate()
        .filter(|&(i, input)| !marks::is_marked(marks, i as u8) && 1 < *input)
        .count()
}

// Cause 5.
fn judge_inputs(n: u8, marks: u32, inputs: &[u8]) -> Verdict
    ensures { result ≡ inputs_verdict n marks inputs.now }
{
    if inputs.len() == n as usize {
        let count = count_foreign(marks, inputs);
        return cause::refused_if(0 < count, Cause::Value);
    }
    Ok(())
}

// Cause 8: the lengths of the inputs, of the table and of the outcomes.
fn judge_lengths(line: Line, inputs_len: usize, table_len: usize, outcomes_len: usize) -> Verdict
    ensures { result ≡ (exact_length line.n inputs_len or_else exact_length (exchange_length line.n) table_len or_else exact_length (outcomes_length line.n) outcomes_len) }
{
    header::exact_length(line.n as usize, inputs_len)?;
    header::exact_length(line.exchange_len(), table_len)?;
    header::exact_length(line.outcomes_len(), outcomes_len)
}

// Causes 2, 3, 5, 6 and 8, the lowest first.
#[tactic(auto, unfolding(crate::specs::Promise::exchange_verdict))]
fn judge(line: Line, marks: u32, inputs: &[u8], table_len: usize, outcomes_len: usize) -> Verdict
    ensures { result ≡ exchange_verdict line.n line.t line.upper marks inputs.now table_len outcomes_len }
{
    header::line_verdict(line)?;
    judge_inputs(line.n, marks, inputs)?;
    header::marks_within(line.n, marks)?;
    judge_lengths(line, inputs.len(), table_len, outcomes_len)
}

// The inputs, at most 32, in an array.
#[tactic(auto, unfolding(line::specs::Writing::Each, broadcast::specs::Station::at))]
fn first_bytes(inputs: &[u8]) -> [u8; 32]
    requires { length inputs.now ≤ 32 }
    ensures { Each (length inputs.now) result (at inputs.now) }
{
    let mut x = [0; 32];
    x[..inputs.len()].copy_from_slice(inputs);
    x
}

// Both rounds, with a log of their own: each station's y and grade, and how many of the two rounds had a garbled ballot for it.
fn exchanged(line: Line, marks: u32, inputs: &[u8], table: &[u8]) -> Stations
    requires { (line.n ≤ 32) × (length inputs.now ≡ line.n) × (length table.now ≡ exchange_length line.n) × Bits line.n marks inputs.now }
    ensures { Graded line.n line.t line.upper marks inputs.now table.now result }
{
    let n = line.n as usize;
    let mut log = [0u8; 2048];
    let entered = Stations::opened(first_bytes(inputs));
    let chosen = round::play(line, 0, Part::First, entered, marks, table, &mut log, 0);
    round::play(line, 0, Part::Second, chosen, marks, table, &mut log, n * n)
}

// All stations' outcomes.
fn write_outcomes(line: Line, marks: u32, inputs: &[u8], table: &[u8], outcomes: &mut [u8])
    requires { Ready line.n line.t line.upper marks inputs.now (length table.now) (length outcomes.old) }
    ensures { outcomes.new ≡ exchange_outcomes line.n line.t line.upper marks inputs.now table.now }
{
    let done = exchanged(line, marks, inputs, table);
    outcome::write(done.value, done.grade, done.garbled, marks, outcomes);
}

// The exchange: an input byte for each station and a ballot table in, an outcome for each station out.
pub fn exchange(line: Line, marks: u32, inputs: &[u8], table: &[u8], outcomes: &mut [u8]) -> Verdict
    ensures { Exchanged line.n line.t line.upper marks inputs.now table.now outcomes.old outcomes.new result }
{
    judge(line, marks, inputs, table.len(), outcomes.len())?;
    write_outcomes(line, marks, inputs, table, outcomes);
    Ok(())
}
