//! Reading the parts of data sets.
pub(crate) mod base;
pub(crate) mod body;
pub(crate) mod decoder;
pub(crate) mod number;
pub(crate) mod raw;
pub(crate) mod segment;
pub(crate) mod strings;
pub(crate) mod table;
pub(crate) mod table_entry;
#[cfg(test)]
mod tests;
pub(crate) mod text;
