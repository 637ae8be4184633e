// The lines of a listing, put into a lent buffer as far as the buffer goes: those of a run, from a place on, or the one of a refusal, at its start.
#![tactic(auto)]

ghost use Rattle.std.specs.Prelude.{◌≡◌, [], ◌∷◌, ◌<◌, All, map};
ghost use Rattle.refusal.specs.Cause.{no_cause};
ghost use Rattle.text.specs.Laid.{Puts};
ghost use Rattle.listing_lines.specs.Lines.{num, dash, refused, first_line, station_line, station_lines, lines_by};
ghost use Rattle.listing_lines.specs.Text.{more_text, line_text, text};

use header::Header;
use line::Line;
use std::array;

// The grade of a bad station.
const BAD: u64 = 255;

// The fields after a line's first, which are numbers, and the line's end.
fn fields(out: &mut [u8], at: usize, numbers: &[u64]) -> usize
    requires { All (λ x. x < 1000) numbers.now }
    ensures { Puts out.old out.new at (more_text (map num numbers.now)) result }
{
    let mut place = at;
    for x in numbers {
        place = text::field(out, place, *x);
    }
    text::byte(out, place, b'\n')
}

// The first line of a listing.
fn first_line(out: &mut [u8], at: usize, header: Header) -> usize
    ensures { Puts out.old out.new at (line_text (first_line header)) result }
{
    let Line { n, t, upper } = header.line;
    let rounds = header.line.rounds() as u64;
    let numbers = [
        n as u64,
        t as u64,
        upper as u64,
        header.sender as u64,
        rounds,
    ];
    let a = text::word(out, at, b"agree");
    fields(out, a, &numbers)
}

// The line of the station counted i from 0: its number, then its value, grade, flag and count, or dashes if it is bad, which its grade tells. What the outcomes
// lack is shown as 0.
fn station_line(out: &mut [u8], at: usize, outcomes: &[u8], i: u8) -> usize
    ensures { Puts out.old out.new at (line_text (station_line outcomes.now i)) result }
{
    let first = Line::OUTCOME * (i as usize);
    let outcome: [u64; Line::OUTCOME] = array::from_fn(|k| slices::at(outcomes, first + k) as u64);
    let a = text::number(out, at, i as u64 + 1);
    if outcome[1] == BAD {
        return text::word(out, a, b" - - - -\n");
    }
    fields(out, a, &outcome)
}

// A line for each station.
fn station_lines(out: &mut [u8], at: usize, n: u8, outcomes: &[u8]) -> usize
    ensures { Puts out.old out.new at (text (station_lines outcomes.now 0 n)) result }
{
    let mut place = at;
    for i in 0..n {
        place = station_line(out, place, outcomes, i);
    }
    place
}

// All lines of a run, from a place on.
pub fn of_run(out: &mut [u8], at: usize, header: Header, outcomes: &[u8]) -> usize
    ensures { Puts out.old out.new at (text (lines_by no_cause header outcomes.now)) result }
{
    let a = first_line(out, at, header);
    station_lines(out, a, header.line.n, outcomes)
}

// The one line of a refusal.
pub fn of_refusal(out: &mut [u8], number: u8) -> usize
    ensures { Puts out.old out.new 0 (text ((refused ∷ num number ∷ []) ∷ [])) result }
{
    let a = text::word(out, 0, b"refused");
    fields(out, a, &[number as u64])
}
