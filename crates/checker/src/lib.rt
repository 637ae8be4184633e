// The checker of logs from other makers: all stations are followed through the rounds of a log, each on the rows that it received there, and who sends otherwise or
// ends otherwise broke the rules. The place i of an array is the station counted i from 0.
#![tactic(auto)]

ghost use Rattle.std.specs.Prelude.{◌≡◌, ◌+◌, ◌*◌, ◌≤◌, ◌<◌, [], length, if◌then◌else◌};
ghost use Rattle.line.specs.Line.{rounds, outcome_size, outcomes_length};
ghost use Rattle.line.specs.Marks.{marks_of};
ghost use Rattle.rules.specs.Rules.{broke};
ghost use Rattle.checker.specs.Promise.{logged, check_verdict, Checks};
ghost use Rattle.checker.specs.Followed.{Checkable, Followed, tried_value, ends_as, breach, breaches};

use line::{Line, ballot};
use refusal::cause::{Cause, Verdict};
use round::Stations;

// The stations after some rounds, and 1 for each that has sent what it should, otherwise 0: bytes, as `compare::kept_on` takes and gives them.
#[derive(Clone, Copy)]
struct Course {
    stations: Stations,
    kept: [u8; 32],
}

// Causes 2, 3, 4 and 8, the lowest first.
#[tactic(auto, unfolding(crate::specs::Promise::check_verdict))]
fn judge(line: Line, sender: u8, log_len: usize, outcomes_len: usize) -> Verdict
    ensures { result ≡ check_verdict line.n line.t line.upper sender log_len outcomes_len }
{
    header::line_verdict(line)?;
    header::station_number(line.n, sender)?;
    header::exact_length(line.table_len(), log_len)?;
    header::exact_length(line.outcomes_len(), outcomes_len)
}

// The value that is tried: what the sender's first byte says that it was opened with.
fn tried_value(line: Line, sender: u8, log: &[u8]) -> u8
    requires { Checkable (logged line.n line.t line.upper sender log.now []) }
    ensures { result ≡ tried_value (logged line.n line.t line.upper sender log.now []) }
{
    let own = (sender - 1) as usize;
    let heard = ballot::read_sender(log[own * (line.n as usize)]);
    step::x(heard)
}

// All rounds, from the first to the last: what each station should send is held against the log, and each takes its row of the log, in which any ballot may be
// garbled. All are opened with the value that is tried, which matters only at the sender.
fn all_rounds(line: Line, sender: u8, log: &[u8]) -> Course
    requires { Checkable (logged line.n line.t line.upper sender log.now []) }
    ensures { Followed (logged line.n line.t line.upper sender log.now []) (tried_value (logged line.n line.t line.upper sender log.now [])) (rounds line.t) result }
{
    let n = line.n as usize;
    let size = n * n;
    let mut course = Course {
        stations: Stations::opened([tried_value(line, sender, log); 32]),
        kept: [1; 32],
    };
    for r in 0..line.rounds() as u8 {
        let part = step::part_of(r + 1);
        let start = r as usize * size;
        let s = course.stations;
        let said = all_stations::tell(sender - 1, part, s.value, s.z);
        course.kept = compare::kept_on(line, &said, log, start, course.kept);
        course.stations = round::take(line, sender - 1, part, Line::ALL, s, log, start);
    }
    course
}

// Whether a done station's outcome is the one whose bytes start at k.
fn ends_as(value: u8, grade: u8, garbled: u8, outcomes: &[u8], k: usize) -> bool
    requires { k + outcome_size ≤ length outcomes.now }
    ensures { result ≡ ends_as value grade garbled outcomes.now k }
{
    outcomes[k..k + Line::OUTCOME] == [value, grade, step::flag(grade), garbled]
}

// Whether a station has sent or ended otherwise.
#[tactic(auto, unfolding(crate::specs::Followed::breach))]
fn breach(kept: u8, ends: bool) -> bool
    ensures { result ≡ breach kept ends }
{
    kept == 0 || !ends
}

// The marks of the stations that have, the last station's first, so that the bits of the others move up.
fn breaches(n: usize, course: Course, outcomes: &[u8]) -> u32
    requires { (n ≤ 32) × (length outcomes.now ≡ outcomes_length n) }
    ensures { result ≡ marks_of n (breaches course.stations.value course.stations.grade course.stations.garbled course.kept outcomes.now) }
{
    let s = course.stations;
    let mut marks: u32 = 0;
    for i in (0..n).rev() {
        let k = Line::OUTCOME * i;
        let ends = ends_as(s.value[i], s.grade[i], s.garbled[i], outcomes, k);
        marks = 2 * marks + u32::from(breach(course.kept[i], ends));
    }
    marks
}

// The set, of a log and outcomes that are not refused.
fn found(line: Line, sender: u8, log: &[u8], outcomes: &[u8]) -> u32
    requires { (Checkable (logged line.n line.t line.upper sender log.now [])) × (length outcomes.now ≡ outcomes_length line.n) }
    ensures { result ≡ broke (logged line.n line.t line.upper sender log.now outcomes.now) }
{
    let course = all_rounds(line, sender, log);
    breaches(line.n as usize, course, outcomes)
}

// The stations that broke the rules, by a log and outcomes of a line: bit i - 1 is 1 if station i did.
pub fn check(line: Line, sender: u8, log: &[u8], outcomes: &[u8]) -> Result<u32, Cause>
    ensures { Checks (logged line.n line.t line.upper sender log.now outcomes.now) result }
{
    judge(line, sender, log.len(), outcomes.len())?;
    Ok(found(line, sender, log, outcomes))
}
