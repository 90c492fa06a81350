//! The order of the lines of an OPL file by their keys. The lines are read in windows of the file.
ghost use Rattle.std.specs.Prelude.{◌≡◌, ◌+◌, ◌<◌, ◌≤◌, ◌^◌, true, [], Ok, Some, length, take};
ghost use Rattle.std.specs.Prelude.{IfOk, IfErr, OnErr, IfSome};
ghost use Rattle.osm_files.specs.FileRuns.{IsReadFailure};
ghost use Rattle.osm_files.specs.KeyOrder as spec;
ghost use Rattle.osm_files.specs.ReadAt.{AreAt, AreLast};

use crate::fault::Fault;
use crate::input::Broken;
use crate::line_key::{is_key_below, read_key};
use crate::lines::line_start;
use crate::read_at::ReadAt;
use crate::reason::Reason;
use crate::unknown_line::begins_unknown;
use opl_line::{LineReader, OplReason, find_line_end};
use osm_model::Key;
use std::alloc::Global;

/// The number of bytes of a window. A window is larger only if a line that may hold a version doesn't end in it.
pub(crate) const WINDOW: u64 = 65536;

/// Lines whose keys don't fall.
#[derive(Clone, Copy, Debug)]
struct RisingLines {
    /// The offset of their end.
    end: u64,
    /// The key of their last version.
    last: Option<Key>,
}

/// Why lines aren't read on.
#[derive(Clone, Copy, Debug)]
enum Stop {
    /// The next line's key is below the key before it.
    Falls,
    /// The next line can't be read.
    Refused(OplReason),
}

/// The offset of the line at which a reading stops, and the reason.
#[derive(Clone, Copy, Debug)]
struct StopAt {
    offset: u64,
    why: Stop,
}

/// The offset of the first of the lines from `start` up to `end` of an OPL file whose key is below the key before it.
/// Lines of the usual form aren't read further than their keys.
///
/// # Errors
///
/// The reason why a line before that offset can't be read, at the line's offset in the file. `ReadFault` if the file
/// can't be read or is shorter; or `Memory`.
pub(crate) fn first_falling<F: ReadAt>(
    alloc: Global,
    file: &F,
    start: u64,
    end: u64,
) -> Result<Option<u64>, Fault>
    ensures order { IfSome (F.bytes file.now) (λ all. end ≤ length all
        → spec.IsOrderOfLines (F.fails file.now) all start end result) }
{
    let mut window = WINDOW;
    let mut lines = RisingLines {
        end: start,
        last: None,
    };
    'windows: while lines.end < end {
        let left = end - lines.end;
        let count = left.min(window);
        let bytes = read_exact(alloc, file, lines.end, count as usize)?;
        match read_lines(alloc, &bytes, lines, count == left) {
            Ok(read) if read.end > lines.end => lines = read,
            Ok(_) => match pass_line(file, &bytes, lines.end, end)? {
                Some(next) => lines.end = next,
                None => window = window.saturating_mul(2),
            },
            Err(stop) => return stop.outcome(),
        }
    }
    Ok(None)
}

impl StopAt {
    /// The result of a search that stops so.
    fn outcome(self) -> Result<Option<u64>, Fault>
        ensures { result ≡ spec.outcome_of self }
    {
        match self.why {
            Stop::Falls => Ok(Some(self.offset)),
            Stop::Refused(reason) => Err(Fault::at(0, self.offset, Reason::from(reason))),
        }
    }
}

/// Passes a line that doesn't end in a window, and of which `front` are the first bytes, from `offset` on. Returns the
/// offset of the next line after a comment, of which no byte is kept; `None` if the line may hold a version.
///
/// # Errors
///
/// `UnknownKind` if the line begins no version. It may be `NotUtf8` as well: the rest of the line isn't read.
/// `ReadFault` if the file can't be read.
fn pass_line<F: ReadAt>(file: &F, front: &[u8], offset: u64, end: u64) -> Result<Option<u64>, Fault>
    requires some { offset < end }
    requires begun { 0 < length front.now }
    ensures passed { IfSome (F.bytes file.now) (λ all. end ≤ length all → AreAt (Some all) offset front.now
        → spec.PassesLine (F.fails file.now) all offset end front.now result) }
    ensures onward { IfOk result (λ next. IfSome next (λ next. (offset < next) × (next ≤ end))) }
{
    if begins_unknown(front[0]) {
        return Err(Fault::at(0, offset, Reason::from(OplReason::UnknownKind)));
    }
    if front[0] != b'#' {
        return Ok(None);
    }
    let next = line_start(file, offset + 1, end)?;
    Ok(Some(next.clamp(offset + 1, end)))
}

/// The `count` bytes of a file from `offset` on.
///
/// # Errors
///
/// `ReadFault` if the file can't be read or is shorter; or `Memory`.
pub(crate) fn read_exact<F: ReadAt>(
    alloc: Global,
    file: &F,
    offset: u64,
    count: usize,
) -> Result<Vec<u8>, Fault>
    requires { offset + count < 2 ^ 64 }
    ensures count { IfOk result (λ bytes. length bytes.items ≡ count) }
    ensures bytes { IfOk result (λ bytes. AreAt (F.bytes file.now) offset bytes.items) }
    ensures failure { IfErr result (λ fault. IfSome (F.bytes file.now) (λ all. offset + count ≤ length all
        → IsReadFailure (F.fails file.now) fault)) }
{
    let mut bytes = Vec::new(alloc);
    bytes.resize(count, 0)?;
    let mut filled = 0;
    'reads: while filled < count {
        let at = offset + filled as u64;
        match read_part(file, at, &mut bytes, filled, count - filled) {
            Ok(0) => return Err(Fault::at(0, at, Reason::ReadFault)),
            Err(Broken) => return Err(Fault::at(0, at, Reason::ReadFault)),
            Ok(more) => filled += more,
        }
    }
    Ok(bytes)
}

/// Reads at most `most` bytes of a file from `offset` on into `buffer[end..]`, and returns their number; 0 if there are
/// none.
fn read_part<F: ReadAt>(
    file: &F,
    offset: u64,
    buffer: &mut Vec<u8>,
    end: usize,
    most: usize,
) -> Result<usize, Broken>
    requires some { 0 < most }
    requires within { end + most ≤ length buffer.old.items }
    ensures came { IfOk result (λ count. spec.CameAt (F.bytes file.now) offset
        (take end buffer.old.items) (take (end + count) buffer.new.items) count) }
    ensures most { IfOk result (λ count. count ≤ most) }
    ensures end { result ≡ Ok 0 → AreLast (F.bytes file.now) offset [] }
    ensures broken { OnErr result (F.fails file.now) }
    ensures size { length buffer.new.items ≡ length buffer.old.items }
{
    match file.read_at(&mut buffer[end..end + most], offset) {
        Ok(count) => Ok(count),
        Err(broken) => Err(broken),
    }
}

/// The lines of a file that end in `window`, whose bytes follow `lines`. If `is_last` is set, the last line ends where
/// the window does.
///
/// # Errors
///
/// The first line that can't be read, or whose key is below the key before it.
fn read_lines(
    alloc: Global,
    window: &[u8],
    lines: RisingLines,
    is_last: bool,
) -> Result<RisingLines, StopAt>
    requires { lines.end + length window.now < 2 ^ 64 }
    ensures read { spec.ReadsLines window.now lines is_last result }
    ensures within { IfOk result (λ read. spec.IsWithin window.now lines read) }
    ensures last { IfOk result (λ read. is_last ≡ true → read.end ≡ lines.end + length window.now) }
{
    let mut reader = LineReader::new(alloc);
    let mut last = lines.last;
    let mut read = 0;
    'lines: loop {
        let rest = &window[read..];
        let offset = lines.end + read as u64;
        let Some(size) = find_line_end(rest) else {
            return end_lines(
                &mut reader,
                rest,
                RisingLines { end: offset, last },
                is_last,
            );
        };
        match next_key(&mut reader, &rest[..size], last) {
            Ok(next) => last = next,
            Err(why) => return Err(StopAt { offset, why }),
        }
        read += size + 1;
    }
}

/// The lines after `rest`, which follows `lines` and has no line end. If `is_last` isn't set, more bytes follow, and
/// `rest` isn't read.
///
/// # Errors
///
/// The line `rest`, if it can't be read, or its key is below the key before it.
fn end_lines(
    reader: &mut LineReader,
    rest: &[u8],
    lines: RisingLines,
    is_last: bool,
) -> Result<RisingLines, StopAt>
    requires { lines.end + length rest.now < 2 ^ 64 }
    ensures read { spec.EndsLines rest.now lines is_last result }
{
    if !is_last {
        return Ok(lines);
    }
    match next_key(reader, rest, lines.last) {
        Ok(last) => Ok(RisingLines {
            end: lines.end + rest.len() as u64,
            last,
        }),
        Err(why) => Err(StopAt {
            offset: lines.end,
            why,
        }),
    }
}

/// The key of the last version up to a line, after versions of which `last` is the last key.
///
/// # Errors
///
/// Why the line isn't read, or that its key is below `last`.
fn next_key(reader: &mut LineReader, line: &[u8], last: Option<Key>) -> Result<Option<Key>, Stop>
    ensures { spec.StepsOver last line.now result }
{
    match read_key(reader, line) {
        Ok(Some(key)) => {
            if is_key_below(key, last) {
                return Err(Stop::Falls);
            }
            Ok(Some(key))
        }
        Ok(None) => Ok(last),
        Err(reason) => Err(Stop::Refused(reason)),
    }
}

#[cfg(test)]
mod tests;
