// The rehearsal of a whole broadcast: the line's rounds one after the other, and the outcomes. That this is what single stations make of it, put together with the
// bad ones' bytes, is demand 2 of its promise.
#![tactic(auto)]

ghost use Rattle.std.specs.Prelude.{◌≡◌, length};
ghost use Rattle.rehearsal.specs.Promise.{run_with, rehearsal_verdict, Rehearsed};
ghost use Rattle.rehearsal.specs.Rounds.{Playable, Played, Ran};
ghost use Rattle.line.specs.Line.{rounds, outcomes_length};

use header::Header;
use refusal::cause::Verdict;
use round::Stations;

// Causes 2 to 6 and 8, the lowest first.
#[tactic(auto, unfolding(crate::specs::Promise::rehearsal_verdict))]
fn judge(header: Header, table_len: usize, log_len: usize, outcomes_len: usize) -> Verdict
    ensures { result ≡ rehearsal_verdict header.line.n header.line.t header.line.upper header.sender header.value header.marks table_len log_len outcomes_len }
{
    header::header_verdict(header)?;
    header::exact_length(header.line.table_len(), table_len)?;
    header::exact_length(header.line.table_len(), log_len)?;
    header::exact_length(header.line.outcomes_len(), outcomes_len)
}

// All rounds, from the first to the last: the stations after it. All are opened with the value, which matters only at the sender.
fn all_rounds(header: Header, table: &[u8], log: &mut [u8]) -> Stations
    requires { Playable (run_with header table.now) log.old }
    ensures { Played (run_with header table.now) (rounds header.line.t) result log.new }
{
    let n = header.line.n as usize;
    let size = n * n;
    let mut stations = Stations::opened([header.value; 32]);
    for r in 0..header.line.rounds() as u8 {
        let part = step::part_of(r + 1);
        let start = r as usize * size;
        stations = round::play(
            header.line,
            header.sender - 1,
            part,
            stations,
            header.marks,
            table,
            log,
            start,
        );
    }
    stations
}

// Runs the line, and writes the log and the outcomes.
fn run(header: Header, table: &[u8], log: &mut [u8], outcomes: &mut [u8])
    requires { (Playable (run_with header table.now) log.old) × (length outcomes.old ≡ outcomes_length header.line.n) }
    ensures { Ran (run_with header table.now) log.new outcomes.new }
{
    let done = all_rounds(header, table, log);
    outcome::write(done.value, done.grade, done.garbled, header.marks, outcomes);
}

// The rehearsal of a broadcast by the sender, on a line whose marked stations send what the table has.
pub fn rehearse(header: Header, table: &[u8], log: &mut [u8], outcomes: &mut [u8]) -> Verdict
    ensures { Rehearsed (run_with header table.now) log.old log.new outcomes.old outcomes.new result }
{
    judge(header, table.len(), log.len(), outcomes.len())?;
    run(header, table, log, outcomes);
    Ok(())
}
