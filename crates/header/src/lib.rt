// The judgement of a header's numbers, causes 2 to 6, the lowest first, and of a recipe number's, 15 before these; and of a length, cause 8.
#![tactic(auto)]

ghost use Rattle.std.specs.Prelude.{◌≡◌, ◌^◌, leb};
ghost use Rattle.line.specs.Marks.{mark_beyond};
ghost use Rattle.line.specs.Width.{bits};
ghost use Rattle.refusal.specs.Cause.{Judged};
ghost use Rattle.header.specs.Header.{outside, exceeded, station_count, thresholds, station_number, bit, marks_within, exact_length, line_verdict, header_verdict, width, number_within, number_verdict};

use line::{Line, width};
use refusal::cause;
use refusal::cause::{Cause, Verdict};

// The numbers of a run sheet's header, and of a call without a sheet: the line, the sender, the number that it sends, of w bits, and the marks. Any bytes at
// all may stand in it: number_verdict judges them, and header_verdict those of one broadcast, whose value is a bit and which has no w.
#[derive(Clone, Copy)]
pub struct Header {
    pub line: Line,
    pub sender: u8,
    pub value: u8,
    pub w: u8,
    pub marks: u32,
}

// Below low or above high.
#[tactic(auto, unfolding(crate::specs::Header::outside))]
pub fn outside(low: u8, high: u8, x: u8) -> bool
    ensures { result ≡ outside low high x }
{
    !(low..=high).contains(&x)
}

// t above T, or t + 2T not below n. The sum is computed in 16 bits, where it never wraps.
#[tactic(auto, unfolding(crate::specs::Header::exceeded))]
fn exceeded(n: u8, t: u8, upper: u8) -> bool
    ensures { result ≡ exceeded n t upper }
{
    upper < t || u16::from(n) <= u16::from(t) + 2 * u16::from(upper)
}

fn mark_beyond(n: u8, marks: u32) -> bool
    ensures { result ≡ mark_beyond n marks }
{
    n < 32 && marks >> n != 0
}

// Cause 2.
fn station_count(n: u8) -> Verdict
    ensures { result ≡ station_count n }
{
    cause::refused_if(outside(1, Line::STATIONS, n), Cause::StationCount)
}

// Cause 3.
fn thresholds(n: u8, t: u8, upper: u8) -> Verdict
    ensures { result ≡ thresholds n t upper }
{
    cause::refused_if(exceeded(n, t, upper), Cause::Thresholds)
}

// Cause 4, of the sender or the own station.
pub fn station_number(n: u8, i: u8) -> Verdict
    ensures { Judged (station_number n i) result }
{
    cause::refused_if(outside(1, n, i), Cause::StationNumber)
}

// Cause 5, of one byte.
pub fn bit(v: u8) -> Verdict
    ensures { Judged (bit v) result }
{
    cause::refused_if(1 < v, Cause::Value)
}

// Cause 6.
pub fn marks_within(n: u8, marks: u32) -> Verdict
    ensures { Judged (marks_within n marks) result }
{
    cause::refused_if(mark_beyond(n, marks), Cause::MarkBeyond)
}

// Cause 8, of one length.
pub fn exact_length(wanted: usize, found: usize) -> Verdict
    ensures { Judged (exact_length wanted found) result }
{
    cause::refused_if(found != wanted, Cause::Length)
}

// Causes 2 and 3.
#[tactic(auto, using(refusal::proofs::VerdictLaws::judged), unfolding(crate::specs::Header::line_verdict))]
pub fn line_verdict(line: Line) -> Verdict
    ensures { Judged (line_verdict line.n line.t line.upper) result }
{
    station_count(line.n)?;
    thresholds(line.n, line.t, line.upper)
}

// Causes 2 to 6.
#[tactic(auto, using(refusal::proofs::VerdictLaws::judged), unfolding(crate::specs::Header::header_verdict))]
pub fn header_verdict(header: Header) -> Verdict
    ensures { Judged (header_verdict header.line.n header.line.t header.line.upper header.sender header.value header.marks) result }
{
    line_verdict(header.line)?;
    station_number(header.line.n, header.sender)?;
    bit(header.value)?;
    marks_within(header.line.n, header.marks)
}

// Cause 15.
fn width(w: u8) -> Verdict
    ensures { result ≡ width w }
{
    cause::refused_if(Line::BITS < w, Cause::Width)
}

// 2 to the power w or above.
fn too_large(w: u8, number: u8) -> bool
    ensures { result ≡ leb (2 ^ bits w) number }
{
    let bits = width::bits(w);
    bits < 8 && number >> bits != 0
}

// Cause 5, of a number of w bits.
fn number_within(w: u8, number: u8) -> Verdict
    ensures { result ≡ number_within w number }
{
    cause::refused_if(too_large(w, number), Cause::Value)
}

// Cause 15, then 2 to 6, of a recipe number of w bits.
#[tactic(auto, using(refusal::proofs::VerdictLaws::judged), unfolding(crate::specs::Header::number_verdict))]
pub fn number_verdict(header: Header) -> Verdict
    ensures { Judged (number_verdict header.line.n header.line.t header.line.upper header.sender header.value header.w header.marks) result }
{
    width(header.w)?;
    line_verdict(header.line)?;
    station_number(header.line.n, header.sender)?;
    number_within(header.w, header.value)?;
    marks_within(header.line.n, header.marks)
}
