//! Units: the lines of OPL files and the data sets of o5 files, one at a time from the left.
ghost use Rattle.std.specs.Prelude.{◌≡◌, ◌⊎◌, false, Option, None, Some, Ok, Err, List, ◌≤◌, length, take, position};
ghost use Rattle.std.specs.Prelude.{IfOk, OnOk};
ghost use Rattle.std.specs.List.{list_any};
ghost use Rattle.o5_codec.specs.Decoder.{new_segment};
ghost use Rattle.opl_line.specs.Delimiter.{is_line_end, split_first};
ghost use Rattle.opl_line.specs.Reading.{reading_line};
ghost use Rattle.osm_files.specs.O5 as o5;
ghost use Rattle.osm_files.specs.Reading.{Finds, FindsContent, FindsLast, state_data_of, IsGoodState, ends_at};
ghost use Rattle.osm_files.specs.Units as spec;

use crate::o5::{FILE_END, HEADER_LENGTH, O5_START, is_header, is_lone, kind_of_type};
use crate::reason::Reason;
use o5_codec::{Decoder, O5Reason, SEGMENT_RESET, read_number};
use opl_line::{LineReader, find_line_end, read_line};
use osm_model::Version;
use std::alloc::Global;

/// The most bytes that a number may have.
const NUMBER_LENGTH: usize = 10;

/// A unit that is whole at the front of some bytes.
#[derive(Drop)]
pub(crate) struct ReadUnit {
    /// The number of its bytes.
    pub(crate) size: usize,
    /// The version that it holds, if it holds one.
    pub(crate) version: Option<Version>,
}

/// The stage of a reading of a file.
#[derive(Drop)]
pub(crate) enum FileState {
    /// Among the lines of an OPL file.
    Lines(LineReader),
    /// Before the header of an o5 file.
    Header,
    /// Among the data sets of an o5 file.
    DataSets(Decoder),
    /// After the end byte of an o5 file.
    End,
}

/// A unit of `size` bytes that holds no version.
fn no_version(size: usize) -> Result<Option<ReadUnit>, Reason>
    ensures { result ≡ Ok (Some (record { size = size; version = None })) }
{
    Ok(Some(ReadUnit {
        size,
        version: None,
    }))
}

/// The offset of the end of the first line in `bytes`, if there is one. It isn't in the first `searched` bytes.
#[inline(always)]
fn find_end_after(bytes: &[u8], searched: usize) -> Option<usize>
    requires within { searched ≤ length bytes.now }
    requires none { position is_line_end (take searched bytes.now) ≡ None }
    ensures { result ≡ position is_line_end bytes.now }
{
    match find_line_end(&bytes[searched..]) {
        None => None,
        Some(end) => Some(searched + end),
    }
}

/// Reads the line at the front of `bytes`, if its end is there. The end isn't in the first `searched` bytes.
#[inline(always)]
fn read_line_unit(
    lines: &mut LineReader,
    bytes: &[u8],
    searched: usize,
) -> Result<Option<ReadUnit>, Reason>
    requires within { searched ≤ length bytes.now }
    requires none { position is_line_end (take searched bytes.now) ≡ None }
    ensures { Finds (spec.line_unit (split_first is_line_end bytes.now)) result spec.InOpl }
{
    let Some(end) = find_end_after(bytes, searched) else {
        return Ok(None);
    };
    match lines.read(&bytes[..end]) {
        Ok(version) => Ok(Some(ReadUnit {
            size: end + 1,
            version,
        })),
        Err(reason) => Err(Reason::from(reason)),
    }
}

/// Reads the header at the front of `bytes`, if all its bytes are there.
fn read_header(bytes: &[u8]) -> Result<Option<ReadUnit>, Reason>
    ensures { Finds (spec.header_unit bytes.now) result (spec.InSegment new_segment) }
{
    if bytes.len() < HEADER_LENGTH {
        return Ok(None);
    }
    if !is_header(&bytes[..HEADER_LENGTH]) {
        return Err(Reason::BadHeader);
    }
    no_version(HEADER_LENGTH)
}

/// Whether the number at the front of `bytes` ends there, or has too many bytes to be a number.
fn is_ended(bytes: &[u8]) -> bool
    ensures { result ≡ spec.is_ended bytes.now }
{
    bytes.len() > NUMBER_LENGTH || has_last(bytes)
}

/// Whether `bytes` contain a byte that ends a number.
fn has_last(bytes: &[u8]) -> bool
    ensures { result ≡ list_any spec.is_last bytes.now }
{
    bytes.iter().any(|byte| is_last(*byte))
}

/// Whether a byte ends a number.
fn is_last(byte: u8) -> bool
    ensures { result ≡ spec.is_last byte }
{
    byte < 128
}

/// The version of the content of a data set; `None` if the data set is of no object, so that it is skipped.
#[inline(always)]
fn read_content(
    decoder: &mut Decoder,
    type_byte: u8,
    content: &[u8],
) -> Result<Option<Version>, Reason>
    requires { decoder.old.failed ≡ false }
    ensures { FindsContent decoder.old.segment (o5.kind_of_type type_byte) content.now decoder.new result }
{
    let Some(kind) = kind_of_type(type_byte) else {
        return Ok(None);
    };
    Ok(Some(decoder.read_set(kind, content)?))
}

/// Reads the data set of the type `type_byte`, if all its bytes are there. `bytes` begin after the type byte.
#[inline(always)]
fn read_sized(
    decoder: &mut Decoder,
    type_byte: u8,
    bytes: &[u8],
) -> Result<Option<ReadUnit>, Reason>
    requires { decoder.old.failed ≡ false }
    ensures found { Finds (spec.sized_unit decoder.old.segment type_byte bytes.now (spec.length_at bytes.now))
        result (spec.InSegment decoder.new.segment) }
    ensures good { OnOk result (decoder.new.failed ≡ false) }
    ensures unmoved { result ≡ Ok None → decoder.new ≡ decoder.old }
{
    if !is_ended(bytes) {
        return Ok(None);
    }
    let (size, rest) = match read_number(bytes) {
        Ok(read) => read,
        Err(reason) => return Err(Reason::from(reason)),
    };
    if size > rest.len() as u64 {
        return Ok(None);
    }
    let size = size as usize;
    match read_content(decoder, type_byte, &rest[..size]) {
        Ok(version) => Ok(Some(ReadUnit {
            size: 1 + (bytes.len() - rest.len()) + size,
            version,
        })),
        Err(reason) => Err(reason),
    }
}

/// Reads the data set, reset or lone byte at the front of `bytes`, if all its bytes are there.
#[inline(always)]
fn read_data_set(decoder: &mut Decoder, bytes: &[u8]) -> Result<Option<ReadUnit>, Reason>
    requires good { decoder.old.failed ≡ false }
    requires goes_on { ends_at bytes.now ≡ false }
    ensures found { Finds (spec.segment_unit decoder.old.segment bytes.now)
        result (spec.InSegment decoder.new.segment) }
    ensures good { OnOk result (decoder.new.failed ≡ false) }
    ensures unmoved { result ≡ Ok None → decoder.new ≡ decoder.old }
{
    let Some((type_byte, rest)) = bytes.split_first() else {
        return Ok(None);
    };
    if *type_byte == SEGMENT_RESET {
        decoder.reset();
        return no_version(1);
    }
    if is_lone(*type_byte) {
        return no_version(1);
    }
    read_sized(decoder, *type_byte, rest)
}

/// Nothing may come after the end of a file.
fn read_after_end(bytes: &[u8]) -> Result<Option<ReadUnit>, Reason>
    ensures { Finds (spec.unit_after_end bytes.now) result spec.PastEnd }
{
    match bytes.first() {
        None => Ok(None),
        Some(_) => Err(Reason::AfterEnd),
    }
}

impl FileState {
    /// The first stage of the reading of a file that begins with `bytes`.
    pub(crate) fn of(alloc: Global, bytes: &[u8]) -> FileState
        ensures state { state_data_of result ≡ spec.start_of bytes.now }
        ensures good { IsGoodState result }
    {
        match bytes.first() {
            Some(byte) if *byte == O5_START => FileState::Header,
            _ => FileState::Lines(LineReader::new(alloc)),
        }
    }

    /// The version of the last bytes of a file, if no unit is whole: the last line may lack its end.
    ///
    /// # Errors
    ///
    /// The reason why a file can't end with `bytes`, or `Memory`.
    #[tactic(auto, unfolding(crate::specs::Units::last_at))]
    pub(crate) fn finish(&self, alloc: Global, bytes: &[u8]) -> Result<Option<Version>, Reason>
        ensures { FindsLast (spec.last_at (state_data_of self.now) bytes.now) result }
    {
        match self {
            FileState::Lines(_) => Ok(read_line(alloc, bytes)?),
            FileState::Header => Err(Reason::BadHeader),
            FileState::DataSets(_) => Err(truncation_reason(bytes)),
            FileState::End => Ok(None),
        }
    }

    /// Reads the whole unit at the front of `bytes`, if there is one, and moves to the stage after it. No unit is whole
    /// in the first `searched` bytes.
    ///
    /// # Errors
    ///
    /// The reason why a whole unit can't be read, or `Memory`.
    #[tactic(auto, using(crate::proofs::UnitSteps::known_before), unfolding(crate::specs::Units::unit_at))]
    #[inline(always)]
    pub(crate) fn read(
        &mut self,
        alloc: Global,
        bytes: &[u8],
        searched: usize,
    ) -> Result<Option<ReadUnit>, Reason>
        requires good { IsGoodState self.old }
        requires within { searched ≤ length bytes.now }
        requires none { spec.unit_at (state_data_of self.old) (take searched bytes.now) ≡ None }
        ensures found { Finds (spec.unit_at (state_data_of self.old) bytes.now) result (state_data_of self.new) }
        ensures good { OnOk result (IsGoodState self.new) }
        ensures unmoved { result ≡ Ok None → state_data_of self.new ≡ state_data_of self.old }
    {
        match self {
            FileState::Lines(lines) => read_line_unit(lines, bytes, searched),
            FileState::Header => Ok(self.read_header(alloc, bytes)?),
            FileState::DataSets(decoder) => {
                if ends_at(bytes) {
                    self.end();
                    return no_version(1);
                }
                read_data_set(decoder, bytes)
            }
            FileState::End => read_after_end(bytes),
        }
    }

    /// Moves to the stage after the end byte.
    ///
    /// This is a function of its own only for the optimizer: memory for the dropped stage isn't cleared before each
    /// data set. Three such functions of this crate bring 2 percent of a merge of o5m files.
    #[inline(never)]
    fn end(&mut self)
        ensures state { state_data_of self.new ≡ spec.PastEnd }
        ensures good { IsGoodState self.new }
    {
        *self = FileState::End;
    }

    /// Reads the header at the front of `bytes`, if all its bytes are there, and moves to the stage of the data sets.
    #[inline(never)]
    fn read_header(&mut self, alloc: Global, bytes: &[u8]) -> Result<Option<ReadUnit>, Reason>
        ensures found { Finds (spec.header_unit bytes.now) result (state_data_of self.new) }
        ensures good { IfOk result (λ unit. unit ≡ None ⊎ IsGoodState self.new) }
        ensures unmoved { result ≡ Ok None → self.new ≡ self.old }
    {
        let Some(unit) = read_header(bytes)? else {
            return Ok(None);
        };
        *self = FileState::DataSets(Decoder::new(alloc)?);
        Ok(Some(unit))
    }
}

/// Whether `bytes` begin with the end byte.
fn ends_at(bytes: &[u8]) -> bool
    ensures { result ≡ ends_at bytes.now }
{
    match bytes.first() {
        None => false,
        Some(byte) => *byte == FILE_END,
    }
}

/// The reason why a file can't end among its data sets with `bytes`.
fn truncation_reason(bytes: &[u8]) -> Reason
    ensures { result ≡ spec.cut_reason bytes.now }
{
    let Some(_) = bytes.split_first() else {
        return Reason::NoEnd;
    };
    Reason::O5(O5Reason::Truncated)
}
