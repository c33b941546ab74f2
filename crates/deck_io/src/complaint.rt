// What a program says in words on standard error, which is the sign that it failed. Nothing is promised of them but an end.
//
// What cannot be written there is lost, since there is nowhere left to say so.
use std::fmt::Display;
use std::io::{Error, Write};

// A line of its own.
pub fn say<E: Write, M: Display + Drop>(errors: &mut E, message: M) {
    let _ = writeln!(errors, "{message}");
}

// A text as it stands.
pub fn complain<E: Write>(errors: &mut E, message: &[u8]) {
    let _ = errors.write_all(message);
}

// What failed, and the reason that the system gives.
pub fn complain_why<E: Write>(errors: &mut E, what: &[u8], why: Error) {
    complain(errors, what);
    let _ = writeln!(errors, ": {why}");
}
