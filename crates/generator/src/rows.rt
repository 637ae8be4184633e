// The rows of a table, each a sender's n bytes in a round, one after another.
ghost use Rattle.std.specs.Prelude.{◌≡◌, length, if◌then◌else◌};
ghost use Rattle.line.specs.Writing.{Each};
ghost use Rattle.xorshift.specs.State.{state_after};
ghost use Rattle.generator.specs.Tables.{ballot};
ghost use Rattle.generator.specs.Loops.{drawn_byte, row_byte, Rows, Drawn};

use line::{Line, marks};

// The ballot that a state stands for.
fn ballot(state: u32) -> u8
    ensures { result ≡ ballot state }
{
    let b = state % 4;
    if b == 3 { Line::SILENCE } else { b as u8 }
}

// A marked sender's: a step for each byte. The answer is the last state.
fn drawn_row(row: &mut [u8], mut state: u32) -> u32
    ensures { (result ≡ state_after (length row.old) state) × Each (length row.old) row.new (drawn_byte state) }
{
    for byte in row.iter_mut() {
        state = xorshift::next(state);
        *byte = ballot(state);
    }
    state
}

// A sender's, which may be marked: another's is silence.
fn row(row: &mut [u8], bad: bool, state: u32) -> u32
    ensures { (result ≡ (if bad then state_after (length row.old) state else state)) × Each (length row.old) row.new (row_byte bad state) }
{
    if bad {
        return drawn_row(row, state);
    }
    // `fill` sets the last byte by itself: where nobody is marked it takes half as long again.
    for byte in row.iter_mut() {
        *byte = Line::SILENCE;
    }
    state
}

// All rows of a table. The answer is the last state.
pub(crate) fn fill(n: u8, marks: u32, mut state: u32, table: &mut [u8]) -> u32
    requires { Rows n (length table.old) }
    ensures { Drawn n marks state (length table.old) table.old table.new result }
{
    let width = usize::from(n);
    let mut from = 0;
    // By places: a proof knows nothing of what is written through `chunks_exact_mut`.
    for k in 0..table.len() / width {
        let at = k * width;
        state = row(
            &mut table[at..at + width],
            marks::is_marked(marks, from),
            state,
        );
        // k % n, had without a division for each row.
        from = if from + 1 < n { from + 1 } else { 0 };
    }
    state
}
