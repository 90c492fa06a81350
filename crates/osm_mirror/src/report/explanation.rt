//! The reasons for which files and plans are refused, explained.
use crate::fleet::PlanReason;
use crate::report::explanation::Explained::{File, Plan};
use o5_codec::O5Reason;
use opl_line::OplReason;
use osm_files::Reason;
use osm_files::Reason::{O5, Opl};
use std::fmt;
use std::fmt::{Display, Formatter};

/// A damaged o5 file, or one that another program wrote.
const DAMAGED: &str = "Get the file again. If it is complete, the program that wrote it is faulty.";

/// A reason that is explained: that of a file or a device, or that of a plan. A reason of both has one name.
#[derive(Clone, Copy, Debug, PartialEq, Eq)]
pub enum Explained {
    /// A reason for which a file is refused.
    File(Reason),
    /// A reason for which a plan is refused.
    Plan(PlanReason),
}

/// The explanation of a reason for which a file or a plan is refused.
#[derive(Clone, Copy, Debug, PartialEq, Eq)]
pub struct Explanation {
    /// The reason.
    pub reason: Explained,
    /// What the reason means, without a full stop.
    pub meaning: &'static str,
    /// What to do.
    pub remedy: &'static str,
}

impl Explanation {
    /// The explanation of the reason with the name `name`, in any case, if the program gives one of that name.
    pub fn named(name: &str) -> Option<Explanation> {
        let mut rows = REASONS.iter();
        rows.find(|row| row.name().eq_ignore_ascii_case(name))
            .copied()
    }

    /// The name of the reason, as a refusal prints it.
    pub fn name(&self) -> &'static str {
        match &self.reason {
            File(reason) => reason.name(),
            Plan(reason) => reason.name(),
        }
    }
}

/// The reason and its meaning, as `NoEnd: the file ends without the mark of its end`.
impl Display for Explanation {
    fn fmt<W: fmt::Write>(&self, f: &mut Formatter<W>) -> fmt::Result {
        write!(f, "{}: {}", self.name(), self.meaning)
    }
}

/// Explanations: rows of a reason, its meaning, and what to do.
macro_rules! rows {
    ($($reason:expr, $meaning:expr, $remedy:expr;)*) => {
        [$(Explanation { reason: $reason, meaning: $meaning, remedy: $remedy }),*]
    };
}

/// Each reason with its meaning, and with what to do: those of the order and of files, of lines, of data sets, of
/// devices and of plans.
pub static REASONS: [Explanation; 28] = rows![
    File(Reason::Unsorted), "a version's key is below the key of the version before it",
        "Sort the file: osm_hist sort --output SORTED FILE.";
    File(Reason::BadHeader), "the file begins with the byte of o5m and o5c, and not with their header",
        "Get the file again, or find out its format.";
    File(Reason::NoEnd), "the file ends without the mark of its end",
        "Get the file again. For OPL from a pipe, write the line # end after the command's success.";
    File(O5(O5Reason::Truncated)), "the file ends within a data set", "Get the file again.";
    File(Reason::AfterEnd), "bytes follow the mark of the file's end",
        "Get the file again. Files of o5m and o5c can't be joined by cat; merge them.";
    File(Reason::TooLong), "the file has 2^62 bytes or more", "Split the file.";
    File(Opl(OplReason::UnknownKind)), "a line doesn't begin with n, w or r, and is no comment",
        "Check that the file is OPL. osmium cat -f opl converts XML and PBF.";
    File(Opl(OplReason::UnknownField)), "a line has a field that its kind of object doesn't have",
        "Correct the line: each field begins with its letter, after a space.";
    File(Opl(OplReason::RepeatedField)), "a line has a field twice",
        "Remove one of the two fields.";
    File(Opl(OplReason::BadNumber)), "a number has other characters than digits, or too many bytes, or no end",
        "Write the number in decimal digits. Get a file of o5m or o5c again.";
    File(Opl(OplReason::BadText)), "a text has a character that must be escaped, a faulty escape, or no end",
        "Write the character as its code between % signs: a space is %20%. Get a file of o5m or o5c again.";
    File(Opl(OplReason::BadTime)), "a time isn't as 2015-06-01T00:00:00Z, or the calendar lacks its day",
        "Write the time in this form, in UTC.";
    File(Opl(OplReason::BadCoordinate)), "a coordinate isn't a decimal number with at most 7 decimals",
        "Round the coordinate to 7 decimals.";
    File(Opl(OplReason::BadList)), "a list of tags, references or members isn't written as one",
        "Separate its items by commas: Tkey=value,key=value or Nn1,n2 or Mn1@role,w2@role.";
    File(Opl(OplReason::OutOfRange)), "a number, a time or a coordinate is outside its range",
        "Correct the value; FORMATS.md has the ranges.";
    File(Opl(OplReason::NoVersion)), "an object has no version number, or the number 0",
        "Get a file with version numbers: not all programs write them.";
    File(Opl(OplReason::NoTime)), "an object has a changeset, a user id or a user name, but no time",
        "Add the time, or remove these fields.";
    File(Opl(OplReason::NoLocation)), "a node that isn't deleted has no location",
        "Add its coordinates x and y, or mark the node as deleted by dD.";
    File(Opl(OplReason::NotUtf8)), "a text isn't UTF-8",
        "Convert the file to UTF-8, if it is a text. A compressed file has to be decompressed.";
    File(O5(O5Reason::BadReference)), "a data set refers to a string that the file doesn't have",
        DAMAGED;
    File(O5(O5Reason::BadSection)), "the list of an object is longer than the rest of its data set",
        DAMAGED;
    File(O5(O5Reason::BadMemberType)), "the type of a member is none of node, way and relation",
        DAMAGED;
    File(O5(O5Reason::MixedSegment)),
        "a way with references and a relation with a node member have no reset between them",
        DAMAGED;
    File(Reason::ReadFault), "the system didn't give the bytes of the file",
        "Remove the cause that --hints prints.";
    File(Reason::WriteFault), "the system didn't take the bytes of the output",
        "Remove the cause that --hints prints: a full disk, for example.";
    Plan(PlanReason::BadWord), "a line of a plan has an unknown word, or too many or too few words",
        "Write the line as the section PLANS of the manual has it, with single spaces.";
    Plan(PlanReason::BadOrder), "a line of a plan comes too late",
        "Write the mirrors first, then the events, and then the files to be written.";
    Plan(PlanReason::NoMirror), "a line of a plan names a mirror that the plan doesn't have",
        "Count the mirrors from 0, or add a line full or latest.";
];

/// The list of all reasons, each with its meaning in a line.
#[derive(Clone, Copy, Debug)]
pub struct ReasonList;

impl Display for ReasonList {
    fn fmt<W: fmt::Write>(&self, f: &mut Formatter<W>) -> fmt::Result {
        for row in &REASONS {
            write!(f, "{row}\n")?;
        }
        Ok(())
    }
}

#[cfg(test)]
mod tests;
