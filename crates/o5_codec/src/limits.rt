//! The limits of the string table, which both sides keep.
ghost use Rattle.std.specs.Prelude.{◌≡◌};
ghost use Rattle.o5_codec.specs.Table.{is_short};

use crate::strings::StringPair;

/// The most entries that the table holds.
pub(crate) const TABLE_LIMIT: usize = 15_000;

/// The most bytes that the two strings of a stored entry have together.
const LONGEST_ENTRY: usize = 250;

/// Whether two strings have few enough bytes to be stored.
pub(crate) fn is_short(strings: &StringPair<'_>) -> bool
    ensures { result ≡ is_short strings.now }
{
    strings.first.len() <= LONGEST_ENTRY
        && strings.second.len() <= LONGEST_ENTRY - strings.first.len()
}
