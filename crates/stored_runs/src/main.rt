// Run sheets read from standard input and rehearsed, a line of text for each, refusals included. Each is the sheet's length and the lent table's, two bytes
// with the low byte first, then the sheet. tests/runs.py makes the sheets, and prints the same text by an implementation of its own.
#![tactic(auto)]

use std::io;
use std::io::Read;

// The longest sheet or table that a two-byte number can ask for, of zeros.
fn zeros() -> [u8; 65536] {
    [0; 65536]
}

// Takes a sheet that fills its buffer, and lends a table of the given length. One that is longer than the largest is part of another buffer, of zeros.
// An error: the input ends before.
fn take(
    rt: &(impl io::Input + Print),
    k: u64,
    sheet: &mut [u8],
    lent: u16,
    table: &mut [u8; 36864],
) -> io::Result<()> {
    rt.reader().read_exact(sheet)?;
    let a = lent as usize;
    if lent <= 36864 {
        stored_run::run(rt, k, sheet, lent, &mut table[..a]);
    } else {
        let mut longer = zeros();
        stored_run::run(rt, k, sheet, lent, &mut longer[..a]);
    }
    Ok(())
}

// Takes the next run, its lengths first. An error: there is none.
fn next(rt: &(impl io::Input + Print), k: u64, table: &mut [u8; 36864]) -> io::Result<()> {
    let mut head = [0; 4];
    rt.reader().read_exact(&mut head)?;
    let [a, b, c, d] = head;
    let len = u16::from_le_bytes([a, b]) as usize;
    let mut sheet = zeros();
    take(rt, k, &mut sheet[..len], u16::from_le_bytes([c, d]), table)
}

// The table before the first run.
fn filled() -> [u8; 36864] {
    [255; 36864]
}

// All runs, numbered from 1. Nothing says that an input ends, so the numbers do, beyond any that is used.
fn main(rt: HostRuntime) {
    let mut table = filled();
    for k in 1..1000000 {
        if next(&rt, k, &mut table).is_err() {
            return;
        }
    }
}
