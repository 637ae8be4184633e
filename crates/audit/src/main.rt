// Reads a log and outcomes and tells which stations broke the rules. Arguments: n, t, T and the sender in decimal, then the names of the log's and of the
// outcomes' file.
#![tactic(auto)]

mod trouble;

ghost use Rattle.std.specs.Prelude.{◌≡◌, ◌+◌, length, take, IfSome};
ghost use Rattle.std.specs.Counts.{IsPrefixLen};
ghost use Rattle.input.specs.Reading.{Within};
ghost use Rattle.checker.specs.Promise.{logged, check_answer};
ghost use Rattle.finding.specs.Finding.{finding};

use line::Line;
use std::env::FillError;
use std::fs::File;
use std::io;
use std::io::Stderr;
use std::rt::{Env, Files};

// The longest line (`FindingShort` of crate finding).
const LONGEST: usize = 93;

// The longest argument that is looked at, which no file's name reaches.
const LONGEST_ARGUMENT: usize = 4096;

// The line that tells what is found, whole, at the start of the text.
fn found(line: Line, sender: u8, log: &[u8], outcomes: &[u8], text: &mut [u8; LONGEST]) -> usize
    ensures { (take result text.new ≡ finding (check_answer (logged line.n line.t line.upper sender log.now outcomes.now))) × IsPrefixLen result text.new }
{
    let answer = checker::check(line, sender, log, outcomes);
    finding::of_answer(text, answer)
}

// Writes that line.
fn tell(rt: &(impl Print + Eprint), line: Line, sender: u8, log: &[u8], outcomes: &[u8]) {
    let mut text = [0u8; LONGEST];
    let n = found(line, sender, log, outcomes, &mut text);
    if rt.write_all(&text[..n]).is_err() {
        let _ = rt.eprintln("audit: the line could not be written");
    }
}

// Reads the file of that name to its end. The library's names of files are text: a name that is none is told by the system's word for that.
fn read_named(rt: &impl Files, name: &[u8], buf: &mut [u8]) -> io::Result<usize>
    ensures { Within result buf.new }
{
    let text = std::str::from_utf8(name).map_err(|_| trouble::not_text())?;
    input::whole(&mut File::open(rt, text)?, buf)
}

// Reads the file that argument i names, or says why it can't be. The buffer has one byte more than the most that is wanted, which tells that the file is longer.
fn read<R: Env + Files>(
    rt: &R,
    errors: Stderr,
    i: usize,
    most: usize,
    buf: &mut [u8],
) -> Option<usize>
    requires { length buf.old ≡ most + 1 }
    ensures { IfSome result (λ n. IsPrefixLen n buf.new) }
{
    let mut name = [0u8; LONGEST_ARGUMENT];
    let (name, got) = match rt.arg(i, &mut name) {
        Ok(len) => (&name[..len], read_named(rt, &name[..len], buf)),
        Err(why) => (&name[..], Err(trouble::of_argument(why))),
    };
    got.inspect_err(|why| trouble::say(errors, name, *why)).ok()
}

// Reads both files.
fn audit<R: Env + Files + Print + Eprint>(rt: &R, errors: Stderr, line: Line, sender: u8) {
    let mut log = [0u8; Line::LARGEST_TABLE + 1];
    let mut outcomes = [0u8; Line::LARGEST_OUTCOMES + 1];
    let Some(log_len) = read(rt, errors, 5, Line::LARGEST_TABLE, &mut log) else {
        return;
    };
    let Some(outcomes_len) = read(rt, errors, 6, Line::LARGEST_OUTCOMES, &mut outcomes) else {
        return;
    };
    tell(rt, line, sender, &log[..log_len], &outcomes[..outcomes_len]);
}

// Argument i as a number.
fn number(rt: &impl Env, i: usize) -> Option<u8> {
    let mut text = [0u8; LONGEST_ARGUMENT];
    let len = rt.arg(i, &mut text).ok()?;
    argument::number(&text[..len])
}

// Whether there is an argument i.
fn is_given(rt: &impl Env, i: usize) -> bool {
    !matches!(rt.arg(i, &mut []), Err(FillError::NotPresent))
}

// The line and the sender that the arguments ask for, if they are as wanted.
fn asked(rt: &impl Env) -> Option<(Line, u8)> {
    if !is_given(rt, 6) || is_given(rt, 7) {
        return None;
    }
    let n = number(rt, 1)?;
    let t = number(rt, 2)?;
    let upper = number(rt, 3)?;
    let sender = number(rt, 4)?;
    Some((Line { n, t, upper }, sender))
}

fn main(rt: HostRuntime) {
    match asked(&rt) {
        Some((line, sender)) => audit(&rt, rt.stderr(), line, sender),
        None => {
            let _ = rt.eprintln(
                "audit: wanted are n, t, T and the sender in decimal, the log's file and the outcomes' file",
            );
        }
    }
}
