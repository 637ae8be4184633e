// What is printed of a stored run, to standard output. What is printed no contract can say.
use header::Header;

// The run's own number.
pub(crate) fn name(out: &impl Print, k: u64) {
    let _ = print!(out; "run {k}:");
}

// The checksum of the lent table.
fn table(out: &impl Print, table: &[u8]) {
    let sum = checksum(table);
    let _ = print!(out; "; table {sum}");
}

// An accepted sheet: n, t, T, sender, value, w and marks.
pub(crate) fn header(out: &impl Print, h: Header, lent: &[u8]) {
    let (n, t, upper) = (h.line.n, h.line.t, h.line.upper);
    let (sender, value, w, marks) = (h.sender, h.value, h.w, h.marks);
    let _ = print!(out; " {n} {t} {upper} {sender} {value} {w} {marks}");
    table(out, lent);
}

// A refused sheet.
pub(crate) fn refusal(out: &impl Print, cause: u8, lent: &[u8]) {
    let _ = print!(out; " refused {cause}");
    table(out, lent);
    let _ = out.println("");
}

// The rehearsal's answer, by its code, the bytes of the outcomes, and the checksums of the log and of the outcomes.
pub(crate) fn rehearsal(out: &impl Print, code: u8, log: &[u8], outcomes: &[u8]) {
    let answer = if code == 0 { "accepted" } else { "refused" };
    let _ = print!(out; "; {answer}:");
    for b in outcomes {
        let _ = print!(out; " {b}");
    }
    let (of_log, of_outcomes) = (checksum(log), checksum(outcomes));
    let _ = println!(out; "; sums {of_log} {of_outcomes}");
}

// One number for a list of bytes, in which each byte and its place counts.
fn checksum(list: &[u8]) -> u64 {
    list.iter().fold(
        0,
        |sum, b| (sum % 4294967296 * 31 + u64::from(*b) + 1) % 4294967296,
    )
}
