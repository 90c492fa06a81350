//! The lines of an OPL file from an offset on.
ghost use Rattle.std.specs.Prelude.{◌≡◌, ◌<◌, ◌≤◌, length, IfOk, IfErr, IfSome};
ghost use Rattle.osm_files.specs.FileRuns.{IsReadFailure};
ghost use Rattle.osm_files.specs.LineKey as spec;
ghost use Rattle.osm_files.specs.Lines.{IsLineStart, IsFirstBetween, IsFront, IsOnward, AreSkipped, IsLineRead};
ghost use Rattle.osm_files.specs.Lines.{bytes_between};

use crate::fault::Fault;
use crate::input::Broken;
use crate::key_order::read_exact;
use crate::line_key::{front_key, read_key};
use crate::read_at::ReadAt;
use crate::reason::Reason;
use opl_line::{LineReader, find_line_end};
use osm_model::Object;
use std::alloc::Global;

/// The number of bytes that the first read of a search asks for.
const NEAR: usize = 4096;

/// The number of bytes that each later read in the search for the end of a line asks for.
const FAR: usize = 65536;

/// The offset of the first line that begins at `offset` or after it, or `end` if that is less. A line begins at 0 and
/// after each end of a line. If no line begins at `offset` or after it, the file's length counts as the offset of one,
/// or `offset - 1` if that is more.
///
/// No byte before `offset - 1` or from `end` on is read. So a caller that knows the first line from `end` on finds the
/// first line from `offset` on, and reads the bytes between these two offsets only.
///
/// # Errors
///
/// `ReadFault` if the file can't be read. The fault has the number 0.
pub fn line_start<F: ReadAt>(file: &F, offset: u64, end: u64) -> Result<u64, Fault>
    ensures start { IfOk result (IsLineStart (F.bytes file.now) offset end) }
    ensures refused { IfErr result (IsReadFailure (F.fails file.now)) }
{
    let near = offset.saturating_add(NEAR as u64).min(end);
    let start = search(file, offset, near, &mut [0u8; NEAR])?;
    if start < near || near == end {
        return Ok(start);
    }
    search_far(file, near, end)
}

/// The result of [`line_start`] by large reads.
///
/// This is a function of its own because of its buffer: most searches end in their first read, and don't pay for it.
#[inline(never)]
fn search_far<F: ReadAt>(file: &F, offset: u64, end: u64) -> Result<u64, Fault>
    ensures start { IfOk result (IsLineStart (F.bytes file.now) offset end) }
    ensures refused { IfErr result (IsReadFailure (F.fails file.now)) }
{
    search(file, offset, end, &mut [0u8; FAR])
}

/// The result of [`line_start`] by reads into `buffer`.
fn search<F: ReadAt>(file: &F, offset: u64, end: u64, buffer: &mut [u8]) -> Result<u64, Fault>
    requires some { 0 < length buffer.old }
    ensures start { IfOk result (IsLineStart (F.bytes file.now) offset end) }
    ensures refused { IfErr result (IsReadFailure (F.fails file.now)) }
{
    if offset == 0 {
        return Ok(0);
    }
    // No line ends in the bytes from `offset - 1` up to `reached`.
    let mut reached = offset - 1;
    'reads: while reached < end {
        let most = (end - reached).min(buffer.len() as u64) as usize;
        let count = match file.read_at(&mut buffer[..most], reached) {
            Ok(0) => return Ok(reached),
            Ok(count) => count,
            Err(Broken) => return Err(Fault::at(0, reached, Reason::ReadFault)),
        };
        if let Some(last) = find_line_end(&buffer[..count]) {
            return Ok(reached + last as u64 + 1);
        }
        reached += count as u64;
    }
    Ok(end)
}

/// What the front of some lines shows.
#[derive(Clone, Copy, Debug)]
enum Front {
    /// The object that the first line names.
    Named(Object),
    /// The lines before this offset are skipped.
    Skipped(u64),
}

/// The object that the first line that isn't skipped names in its first field, of the lines of an OPL file from the
/// offset `start`, at which a line begins, up to the offset `end`; `None` if all are skipped. It is the object of the
/// first version, if the lines spell versions.
///
/// The rest of a line of the usual form isn't read, so the line may spell no version. The search doesn't keep a
/// comment, however long it is.
///
/// # Errors
///
/// The reason why the first line that isn't skipped can't be read, at the line's offset in the file. `ReadFault` if the
/// file can't be read or is shorter; or `Memory`. The fault has the number 0.
pub fn first_object<F: ReadAt>(
    alloc: Global,
    file: &F,
    start: u64,
    end: u64,
) -> Result<Option<Object>, Fault>
    ensures first { IsFirstBetween (F.fails file.now) (F.bytes file.now) start end result }
{
    let mut buffer = [0u8; NEAR];
    let mut offset = start;
    'fronts: while offset < end {
        match read_front(alloc, file, offset, end, &mut buffer)? {
            Front::Named(object) => return Ok(Some(object)),
            Front::Skipped(next) => offset = next,
        }
    }
    Ok(None)
}

/// The front of the lines of a file from `offset`, at which a line begins, up to `end`. It is read into `buffer`.
fn read_front<F: ReadAt>(
    alloc: Global,
    file: &F,
    offset: u64,
    end: u64,
    buffer: &mut [u8],
) -> Result<Front, Fault>
    requires some { offset < end }
    requires room { 0 < length buffer.old }
    ensures front { IfSome (F.bytes file.now) (λ all. end ≤ length all
        → IsFront (F.fails file.now) all offset end result) }
    ensures onward { IfOk result (IsOnward offset end) }
{
    let most = (end - offset).min(buffer.len() as u64) as usize;
    let count = match file.read_at(&mut buffer[..most], offset) {
        Ok(0) => return Err(Fault::at(0, offset, Reason::ReadFault)),
        Ok(count) => count,
        Err(Broken) => return Err(Fault::at(0, offset, Reason::ReadFault)),
    };
    let bytes = &buffer[..count];
    if let Some(key) = front_key(bytes) {
        return Ok(Front::Named(key.object));
    }
    let size = skipped_size(bytes);
    if size > 0 {
        return Ok(Front::Skipped(offset + size as u64));
    }
    let next = line_start(file, offset + 1, end)?.clamp(offset + 1, end);
    if bytes[0] == b'#' {
        return Ok(Front::Skipped(next));
    }
    read_line(alloc, file, offset, next)
}

/// The number of bytes of the lines at the front of `bytes` that are skipped and end in `bytes`.
fn skipped_size(bytes: &[u8]) -> usize
    ensures within { result ≤ length bytes.now }
    ensures skipped { AreSkipped bytes.now result }
{
    let mut read = 0;
    'lines: loop {
        let rest = &bytes[read..];
        let Some(size) = find_line_end(rest) else {
            return read;
        };
        if size > 0 && rest[0] != b'#' {
            return read;
        }
        read += size + 1;
    }
}

/// The line of a file from `offset` on, which ends before `next`. The line is read whole.
fn read_line<F: ReadAt>(alloc: Global, file: &F, offset: u64, next: u64) -> Result<Front, Fault>
    requires some { offset < next }
    ensures line { IfSome (F.bytes file.now) (λ all. next ≤ length all
        → IsLineRead (F.fails file.now) (spec.first_line (bytes_between offset next all)) next result) }
    ensures onward { IfOk result (IsOnward offset next) }
{
    let bytes = read_exact(alloc, file, offset, (next - offset) as usize)?;
    match read_key(&mut LineReader::new(alloc), first_line(&bytes)) {
        Ok(Some(key)) => Ok(Front::Named(key.object)),
        Ok(None) => Ok(Front::Skipped(next)),
        Err(reason) => Err(Fault::at(0, offset, Reason::from(reason))),
    }
}

/// The first line of `bytes`, without its end.
fn first_line(bytes: &[u8]) -> &[u8]
    ensures { result.now ≡ spec.first_line bytes.now }
{
    match find_line_end(bytes) {
        Some(size) => &bytes[..size],
        None => bytes,
    }
}

#[cfg(test)]
mod tests;
