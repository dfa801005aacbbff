// What a program says of an input or an output that failed.
use std::io::Error;

// What failed, and why.
#[derive(Debug, Drop)]
pub struct Failure {
    pub what: &'static str,
    pub error: Error,
}

// A line on standard error: what failed, a colon and why.
pub fn fail(rt: &impl Eprint, what: &str, error: Error) {
    let _ = eprintln!(rt; "{what}: {error}");
}
