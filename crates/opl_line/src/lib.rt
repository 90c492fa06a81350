//! Reads a version of an object from its OPL line, and writes the line of a version.
#![tactic(auto)]

mod bytes;
mod escape;
mod general;
mod item;
pub mod laws;
mod line;
mod number;
mod reason;
mod straight;
mod time;

pub use bytes::line_end::find_line_end;
pub use line::{LineReader, read_line, write_line};
pub use number::leading_digits;
pub use reason::OplReason;
pub use time::read_time;

#[cfg(test)]
mod tests;
