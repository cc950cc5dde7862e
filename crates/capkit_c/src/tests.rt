//! Tests of the calls as C makes them: each export on its happy path, with values from outside.

mod captures;
mod portable;
mod printing;
mod programs;
mod puts;
mod texts;
mod units;

/// Whether each byte has this value.
fn are_all(bytes: &[u8], value: u8) -> bool {
    for byte in bytes {
        if *byte != value {
            return false;
        }
    }
    true
}
