// The places of all bits' tables that records were seen at: a bit for each, 32 to a number.
ghost use Rattle.std.specs.Prelude.{◌≡◌, ◌<◌, length};
ghost use Rattle.refusal.specs.Cause.{written};
ghost use Rattle.reader.specs.Loops.{looked, with_place};

use line::marks;
use refusal::cause::{Cause, Verdict};

// The numbers that have a bit for each place of the largest tables: as many bytes as one table of these.
pub(crate) const WORDS: usize = 9216;

// Cause 13, by the places seen before. A place that passes is seen from now on.
pub(crate) fn look(seen: &mut [u32; WORDS], p: usize) -> Verdict
    requires { (p < 294912) × (length seen.old ≡ 9216) }
    ensures { (result ≡ looked seen.old p) × (seen.new ≡ written result (with_place seen.old p) seen.old) }
{
    let word = seen[p / 32];
    let bit = (p % 32) as u8;
    if marks::is_marked(word, bit) {
        return Err(Cause::Duplicate);
    }
    seen[p / 32] = word | 1u32 << bit;
    Ok(())
}
