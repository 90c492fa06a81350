//! Pairs of strings and single strings, as both sides see them.
use std::marker::Model;

/// The number of strings of an entry.
#[derive(Clone, Copy, Debug, PartialEq, Eq)]
pub(crate) enum Form {
    /// Two strings.
    Pair,
    /// One string; it counts as a pair with an empty second string.
    Single,
}

/// Two strings in the bytes of a data set or in the table. Contracts see them as an entry of the table.
#[derive(Drop)]
pub(crate) struct StringPair<'a> {
    pub(crate) first: &'a [u8],
    pub(crate) second: &'a [u8],
}

impl<'a> Model for StringPair<'a> {
    ghost use Rattle.o5_codec.specs.Entry.{EntryStrings};

    ghost Value = { EntryStrings };

    ghost view = { λ s. record { first = s.first.now; second = s.second.now } };
}
