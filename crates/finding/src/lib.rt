// The line that tells what the checker found, put at the start of a lent buffer as far as the buffer goes: `broke` and the stations' numbers, or `refused` and the
// number of the cause.
#![tactic(auto)]

ghost use Rattle.text.specs.Laid.{Puts};
ghost use Rattle.finding.specs.Finding.{numbers, broke_line, finding};

use line::marks;
use refusal::cause::Cause;

// The numbers of all stations that are marked, in order, each after a space.
fn numbers(out: &mut [u8], at: usize, marks: u32) -> usize
    ensures { Puts out.old out.new at (numbers marks 32) result }
{
    let mut place = at;
    for i in 0..32 {
        if marks::is_marked(marks, i) {
            place = text::field(out, place, i as u64 + 1);
        }
    }
    place
}

// The line of a set.
fn of_set(out: &mut [u8], marks: u32) -> usize
    ensures { Puts out.old out.new 0 (broke_line marks) result }
{
    let a = text::word(out, 0, b"broke");
    let b = numbers(out, a, marks);
    text::byte(out, b, b'\n')
}

// The line of an answer.
pub fn of_answer(out: &mut [u8], answer: Result<u32, Cause>) -> usize
    ensures { Puts out.old out.new 0 (finding answer) result }
{
    match answer {
        Ok(marks) => of_set(out, marks),
        Err(cause) => listing_lines::of_refusal(out, cause.number()),
    }
}
