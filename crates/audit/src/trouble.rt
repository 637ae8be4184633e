// Why a file can't be read, in the system's words.
use std::env::FillError;
use std::io;
use std::io::{Stderr, Write};

// Linux's numbers.
const EINVAL: i32 = 22;

const ENAMETOOLONG: i32 = 36;

const EILSEQ: i32 = 84;

// Of an argument that isn't there, or is longer than a file's name can be.
pub(crate) fn of_argument(why: FillError) -> io::Error {
    io::Error::from_raw_os_error(match why {
        FillError::NotPresent => EINVAL,
        FillError::TooLong => ENAMETOOLONG,
    })
}

// Of a name that is no text.
pub(crate) fn not_text() -> io::Error {
    io::Error::from_raw_os_error(EILSEQ)
}

// Writes a line to standard error: the file's name, a colon and the system's word on the error, without the number that std puts after it.
pub(crate) fn say(errors: Stderr, name: &[u8], why: io::Error) {
    let mut buf = [0u8; 128];
    let mut rest: &mut [u8] = &mut buf;
    let _ = write!(rest, "{why}");
    let text = std::str::from_utf8(&buf).unwrap_or("");
    let words = match text.split_once(" (os error ") {
        Some((words, _)) => words,
        None => text.trim_end_matches('\0'),
    };
    let _ = Print::write_all(&errors, name);
    let _ = println!(errors; ": {words}");
}
