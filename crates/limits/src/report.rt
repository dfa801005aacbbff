// The lines of the table: what was tried, and the verdict.
use refusal::Refusal;
use std::fmt::Display;

pub fn report<T: Drop>(rt: &impl Print, what: impl Display + Drop, reply: Result<T, Refusal>) {
    let _ = match reply {
        Ok(_) => println!(rt; "{what} accepted"),
        Err(refusal) => println!(rt; "{what} refused {}", refusal.number()),
    };
}
