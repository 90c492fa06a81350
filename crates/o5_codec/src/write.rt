//! Writing the parts of data sets.
pub(crate) mod base;
pub(crate) mod block;
pub(crate) mod body;
pub(crate) mod encoder;
pub(crate) mod entry;
pub(crate) mod indexed_table;
pub(crate) mod number;
pub(crate) mod segment;
pub(crate) mod set_buffer;
pub(crate) mod slot;
pub(crate) mod string_key;
#[cfg(test)]
mod tests;
