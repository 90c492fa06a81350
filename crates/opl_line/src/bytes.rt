//! Bytes of lines: line ends, cuts of a text, and the test for UTF-8.
pub(crate) mod cut;
pub(crate) mod line_end;
pub(crate) mod scan;
pub(crate) mod utf8;
