//! Data sets of o5m and o5c files, each one version of an object, read relative to the data sets before it.
#![tactic(auto)]

mod base;
mod fault;
pub mod laws;
mod limits;
mod read;
mod reason;
mod strings;
mod write;

pub use fault::EncodeFault;
pub use read::decoder::Decoder;
pub use read::number::{read_number, read_signed};
pub use reason::O5Reason;
pub use write::encoder::{Encoder, SEGMENT_RESET};
