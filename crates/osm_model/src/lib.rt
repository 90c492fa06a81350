//! OpenStreetMap versions: their data, their canonical OPL line, their order, and finite sets of them.
#![tactic(auto)]

mod append;
mod body;
mod calendar;
mod escape;
mod escaped;
mod fault;
mod history;
mod id;
mod items;
mod kind;
pub mod laws;
mod line_bytes;
mod members;
mod memory;
mod meta;
mod object;
mod plain;
mod put;
mod rank;
mod ranked;
mod references;
mod same;
mod small_buffer;
mod spare;
mod tags;
mod text;
mod version;

pub use body::Body;
pub use escaped::{split_four_digits, strip_escaped};
pub use fault::ValueFault;
pub use history::History;
pub use id::is_id;
pub use items::{Item, ItemList};
pub use kind::Kind;
pub use line_bytes::LineBytes;
pub use members::{Member, Members};
pub use memory::Memory;
pub use meta::Meta;
pub use object::{Key, Object};
pub use ranked::Ranked;
pub use references::References;
pub use spare::Spare;
pub use tags::{Tag, Tags};
pub use text::Text;
pub use version::{Parts, Version};

#[cfg(test)]
mod tests;
