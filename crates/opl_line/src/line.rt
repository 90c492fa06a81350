//! Reads and writes OPL lines.
ghost use Rattle.std.specs.Prelude.{◌≡◌, ◌⊎◌, ◌++◌, true, IfOk, IfErr, OnOk, MatchOption};
ghost use Rattle.osm_model.specs.Cursor.{remaining_bytes};
ghost use Rattle.osm_model.specs.Line.{line};
ghost use Rattle.opl_line.specs.Results.{OplReads};
ghost use Rattle.opl_line.specs.Reading as spec;
ghost use Rattle.opl_line.specs.Spells.{Spells, SpellsNothing};
ghost use Rattle.opl_line.specs.LineReason.{LineReason};
ghost use Rattle.opl_line.specs.declared.reason.OplReason.TheVariants as opl;

use crate::OplReason;
use crate::bytes::utf8::to_str;
use crate::general::read_version;
use crate::straight::read_straight;
use crate::straight::shared_author::SharedAuthor;
use osm_model::{LineBytes, Memory, Spare, Version};
use std::alloc::Global;
use std::marker::Model;

/// The version that a line spells, or `None` for a line that is skipped: an empty one, or one that begins with `#`.
/// `line` has no line end.
///
/// # Errors
///
/// `NotUtf8` if the line is not UTF-8. Else the reason of the leftmost faulty field. If no field is faulty, the first
/// that applies of `NoVersion`, `NoTime` and `NoLocation`. `Memory` if an allocation fails.
pub fn read_line(alloc: Global, line: &[u8]) -> Result<Option<Version>, OplReason>
    ensures reading { OplReads (spec.reading_line line.now) result }
    ensures spelled { IfOk result (λ read. MatchOption read (spec.is_skipped line.now ≡ true) (Spells line.now)) }
    ensures refused { IfErr result (λ reason. (reason ≡ opl.Memory) ⊎ SpellsNothing line.now) }
    ensures reason { IfErr result (λ reason. (reason ≡ opl.Memory) ⊎ LineReason line.now reason) }
{
    LineReader::new(alloc).read(line)
}

/// Reads lines one by one, each independently of the others. It makes a version in the memory of one that is not needed
/// any more.
#[derive(Drop)]
pub struct LineReader {
    alloc: Global,
    /// The memory of versions that were given back; the next version is made in it.
    spare: Spare,
    /// The changeset, time and user of earlier lines, which the next line often repeats.
    shared_author: SharedAuthor,
}

/// All readers read a line as the same version, so contracts see nothing of a reader's state.
impl Model for LineReader {
    ghost Value = { Unit {0} };

    ghost view = { λ _. tt };
}

impl LineReader {
    /// A reader that has read no line. It allocates nothing.
    pub fn new(alloc: Global) -> LineReader {
        LineReader {
            alloc,
            spare: Spare::new(alloc),
            shared_author: SharedAuthor::new(alloc),
        }
    }

    /// Reads a line as [`read_line`] does. The straight reader reads a line of the usual form, and the general reader
    /// reads any other line.
    ///
    /// # Errors
    ///
    /// As for [`read_line`].
    pub fn read(&mut self, line: &[u8]) -> Result<Option<Version>, OplReason>
        ensures reading { OplReads (spec.reading_line line.now) result }
        ensures spelled { IfOk result (λ read. MatchOption read (spec.is_skipped line.now ≡ true) (Spells line.now)) }
        ensures refused { IfErr result (λ reason. (reason ≡ opl.Memory) ⊎ SpellsNothing line.now) }
        ensures reason { IfErr result (λ reason. (reason ≡ opl.Memory) ⊎ LineReason line.now reason) }
    {
        if is_skipped(line) {
            return Ok(None);
        }
        if let Some(version) = read_straight(
            self.alloc,
            &mut self.spare,
            &mut self.shared_author,
            line,
        ) {
            return Ok(Some(version));
        }
        let Some(text) = to_str(line) else {
            return Err(OplReason::NotUtf8);
        };
        read_version(self.alloc, &mut self.spare, text).map(Some)
    }

    /// Takes back a version that is not needed any more. The next one is made in its memory.
    #[inline(always)]
    pub fn reuse(&mut self, version: Version) {
        self.spare.put(version);
    }
}

/// Whether a line is skipped: it is empty, or it begins with `#`.
fn is_skipped(line: &[u8]) -> bool
    ensures { result ≡ spec.is_skipped line.now }
{
    match line.first() {
        None => true,
        Some(byte) => *byte == b'#',
    }
}

/// The canonical line of a version, without a line end. [`Version::line_bytes`] gives its bytes, one run at a time.
/// [`Version::append_line`] writes the same bytes faster.
pub fn write_line(alloc: Global, version: &Version) -> Result<Vec<u8>, Memory>
    ensures { IfOk result (λ text. text.items ≡ line version.now) }
{
    let mut text = Vec::new(alloc);
    append_runs(version.line_bytes(), &mut text)?;
    Ok(text)
}

/// Appends the remaining bytes of `bytes`.
fn append_runs(mut bytes: LineBytes<'_>, out: &mut Vec<u8>) -> Result<(), Memory>
    ensures { OnOk result (out.new.items ≡ out.old.items ++ remaining_bytes bytes.entry) }
{
    out.extend_from_slice(bytes.chunk())?;
    while bytes.advance() {
        out.extend_from_slice(bytes.chunk())?;
    }
    Ok(())
}
