//! Laws of the definitions, over all data. They run no code: each is the clause of a function without a body.
ghost use Rattle.o5_codec.specs.Laws as law;
ghost use Rattle.o5_codec.specs.WritingLaws as writing;

/// An unsigned number is read exactly if it is spelled.
pub fn numbers_are_read()
    ensures { law.NumbersAreRead }
{}

/// A signed number is read exactly if it is spelled.
pub fn signed_numbers_are_read()
    ensures { law.SignedNumbersAreRead }
{}

/// Strings are read exactly if they are spelled, inline or by a reference.
pub fn strings_are_read()
    ensures { law.StringsAreRead }
{}

/// A user is read exactly if the first string of a pair spells its id and the second its name.
pub fn users_are_read()
    ensures { law.UsersAreRead }
{}

/// A version is read exactly if the content of a data set spells it, relative to the segment so far. So a content that
/// is refused spells none.
pub fn sets_are_read()
    ensures { law.SetsAreRead }
{}

/// The content of a data set spells at most one version.
pub fn one_version()
    ensures { law.OneVersion }
{}

/// The content of a data set is refused exactly for the reason of its first step that can't be done.
pub fn sets_are_refused()
    ensures { law.SetsAreRefused }
{}

/// The string table that is built entry by entry is that of the list of all inline entries of the segment so far.
pub fn table_holds_the_last_entries()
    ensures { law.TableOfEntries }
{}

/// The content of a data set spells a version, or there is a reason why it spells none.
pub fn spelled_or_refused()
    ensures { law.SpelledOrRefused }
{}

/// If there is a reason why a content spells no version, the content spells none and has no other reason. The reason is
/// never out of memory, an earlier refusal, or the end of a file.
pub fn one_reason()
    ensures { law.OneReason }
{}

/// Data sets in sequence are read exactly if they spell versions in sequence.
pub fn lists_are_read()
    ensures { law.ListsAreRead }
{}

/// One more data set after others spells one more version. Its inline entries come after those of the others.
pub fn sets_continue()
    ensures { law.SetsGoOn }
{}

/// The lists of a segment's objects and entries determine it: each base is the value last spelled for its field, else
/// 0; the string table is that of all inline entries; and the objects determine which lists it had.
pub fn lists_determine_segments()
    ensures { law.ListsDetermineSegments }
{}

/// No segment has both a way with references and a relation with a node member.
pub fn lists_are_not_mixed()
    ensures { law.ListsAreNotMixed }
{}

/// Each version that is read from the start of a segment on is within the ranges of versions.
pub fn sets_make_versions()
    ensures { law.SetsMakeVersions }
{}

/// A version that one data set spells, in a segment whose string table has no zero bytes, is within the ranges of
/// versions. The string table after it has no zero bytes either.
pub fn sound_sets_make_versions()
    ensures { law.SoundSetsMakeVersions }
{}

/// The bytes written for a number spell the number, and no shorter bytes do.
pub fn written_numbers_are_shortest()
    ensures { writing.WrittenNumbersAreShortest }
{}

/// The bytes written for a version are read as that version and no other, and encoder and reader continue with equal
/// contexts.
pub fn written_sets_are_read()
    ensures { writing.WrittenSetsAreRead }
{}

/// The bytes written for a list of versions, from the header on, spell that list and no other.
pub fn written_lists_are_read()
    ensures { writing.WrittenListsAreRead }
{}
