//! Laws of the definitions. Each law is the contract of a function with an empty body.
ghost use Rattle.opl_line.specs.Canonical.{NumberIsReadBack, IdIsReadBack, TextIsReadBack, TimeIsReadBack};
ghost use Rattle.opl_line.specs.Canonical.{CoordinateIsReadBack};
ghost use Rattle.opl_line.specs.Canonical.{ListsAreSpelled, LineSpellsItsVersion, LineIsReadBack, LineIsInOneFile};
ghost use Rattle.opl_line.specs.LineReason.{ReasonIsReported, ReportedIsReason, NeitherHasOneReason};
ghost use Rattle.opl_line.specs.LineReason.{ReasonSpellsNothing};
ghost use Rattle.opl_line.specs.LineReason.{MemoryIsNoReason};
ghost use Rattle.opl_line.specs.Spells.{ReadIsSpelled, SpelledIsRead, OneReading, RefusedSpellsNothing};
ghost use Rattle.opl_line.specs.Spells.{SkippedSpellsNothing};

/// A line spells the version that is read from it.
pub fn read_is_spelled()
    ensures { ReadIsSpelled }
{}

/// A version that a line spells is read from it.
pub fn spelled_is_read()
    ensures { SpelledIsRead }
{}

/// A line spells at most one version.
pub fn one_reading()
    ensures { OneReading }
{}

/// A line that is refused spells no version.
pub fn refused_spells_nothing()
    ensures { RefusedSpellsNothing }
{}

/// A line that is skipped spells no version.
pub fn skipped_spells_nothing()
    ensures { SkippedSpellsNothing }
{}

/// A line that has a reason is refused for it.
pub fn reason_is_reported()
    ensures { ReasonIsReported }
{}

/// The reason for which a line is refused is its reason.
pub fn reported_is_reason()
    ensures { ReportedIsReason }
{}

/// A line that is neither skipped nor spells a version has exactly one reason.
pub fn neither_has_one_reason()
    ensures { NeitherHasOneReason }
{}

/// A line that has a reason is neither skipped nor spells a version.
pub fn reason_spells_nothing()
    ensures { ReasonSpellsNothing }
{}

/// `Memory` is the reason of no line.
pub fn memory_is_no_reason()
    ensures { MemoryIsNoReason }
{}

/// The text of a number is read as the number.
pub fn number_is_read_back()
    ensures { NumberIsReadBack }
{}

/// The text of an id is read as the id.
pub fn id_is_read_back()
    ensures { IdIsReadBack }
{}

/// The canonical form of a text is read as the text.
pub fn text_is_read_back()
    ensures { TextIsReadBack }
{}

/// The text of a moment is read as the moment.
pub fn time_is_read_back()
    ensures { TimeIsReadBack }
{}

/// The text of a coordinate is read as the coordinate.
pub fn coordinate_is_read_back()
    ensures { CoordinateIsReadBack }
{}

/// The canonical text of a list of tags, references or members spells the list.
pub fn lists_are_spelled()
    ensures { ListsAreSpelled }
{}

/// The canonical line of a version spells the version and no other.
pub fn line_spells_its_version()
    ensures { LineSpellsItsVersion }
{}

/// The canonical line of a version is read as the version.
pub fn line_is_read_back()
    ensures { LineIsReadBack }
{}

/// A canonical line contains no line end and isn't skipped.
pub fn line_is_in_one_file()
    ensures { LineIsInOneFile }
{}
