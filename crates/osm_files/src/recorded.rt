//! Recorded reads, which are replayed. So what is proved of a call for every input and every file is true of whatever
//! the reads of a device returned.
ghost use Rattle.std.specs.Prelude.{◌≡◌, [], OnOk, OnErr};
ghost use Rattle.osm_files.specs.Input.{broken_input};
ghost use Rattle.osm_files.specs.Recorded.{replayed, Begins, IsFoundAt};

use crate::input::{Broken, Input};
use crate::read_at::ReadAt;
use std::marker::Model;

/// The results of the reads of a file, in sequence. A read may have given few bytes, and may have failed.
///
/// As an [`Input`] it gives each result again, in as many reads as the buffers need. A result without a byte is the end
/// of input. After a failure the next read goes on.
///
/// As a [`ReadAt`] it is a file of the bytes of all results in sequence. A read at an offset gives bytes of one result,
/// so it may give few. It fails if a failure was recorded at that offset. Two reads of one offset give the same bytes.
#[derive(Drop)]
pub struct Recorded<'a> {
    /// The rest of the result that was begun.
    front: &'a [u8],
    results: &'a [Result<&'a [u8], Broken>],
    /// The index of the first result that wasn't begun.
    next: usize,
}

impl<'a> Model for Recorded<'a> {
    ghost use Rattle.std.specs.Prelude.{◌≤◌, drop, length};
    ghost use Rattle.osm_files.specs.Recorded.{RecordedData};

    ghost Value = { RecordedData };

    ghost view = { λ s. record { front = s.front.now; results = drop s.next s.results.now } };

    ghost invariant = { λ s. s.next ≤ length s.results.now };
}

impl<'a> Recorded<'a> {
    /// The reads that returned `results`.
    pub fn new(results: &'a [Result<&'a [u8], Broken>]) -> Recorded<'a>
        ensures { result ≡ record { front = []; results = results.now } }
    {
        Recorded {
            front: &[],
            results,
            next: 0,
        }
    }

    /// Begins the next result, unless it is the end of input.
    fn begin_next(&mut self) -> Result<(), Broken>
        requires { self.old.front ≡ [] }
        ensures begun { OnOk result (Begins (replayed self.old.results) self.new.front (replayed self.new.results)) }
        ensures broken { OnErr result (replayed self.old.results ≡ broken_input []) }
    {
        if self.next >= self.results.len() {
            return Ok(());
        }
        match self.results[self.next] {
            Err(Broken) => {
                self.next += 1;
                Err(Broken)
            }
            Ok(bytes) => {
                if !bytes.is_empty() {
                    self.front = bytes;
                    self.next += 1;
                }
                Ok(())
            }
        }
    }

    /// The results that weren't begun.
    fn rest(&self) -> &'a [Result<&'a [u8], Broken>]
        ensures { result.now ≡ self.now.results }
    {
        &self.results[self.next..]
    }

    /// The result at `offset`, from that offset on; `None` if there is none.
    fn result_at(&self, offset: u64) -> Option<Result<&'a [u8], Broken>>
        ensures { IsFoundAt self.now.front self.now.results offset result }
    {
        let begun = self.front.len() as u64;
        if offset < begun {
            return Some(Ok(&self.front[offset as usize..]));
        }
        let mut left = offset - begun;
        'results: for result in self.rest() {
            match result {
                Err(Broken) if left == 0 => return Some(Err(Broken)),
                Err(Broken) => {}
                Ok(bytes) => {
                    let size = bytes.len() as u64;
                    if left < size {
                        return Some(Ok(&bytes[left as usize..]));
                    }
                    left -= size;
                }
            }
        }
        None
    }
}

impl<'a> Input for Recorded<'a> {
    ghost use Rattle.std.specs.Prelude.{refl};
    ghost use Rattle.osm_files.specs.Recorded.{given_by};

    ghost can_give = { λ s c. c ≡ given_by s };

    ghost one = { given_by };

    ghost possible = { λ s. refl };

    fn read(&mut self, buffer: &mut [u8]) -> Result<usize, Broken> {
        if self.front.is_empty() {
            self.begin_next()?;
        }
        let count = self.front.len().min(buffer.len());
        let (given, rest) = self.front.split_at(count);
        buffer[..count].copy_from_slice(given);
        self.front = rest;
        Ok(count)
    }
}

impl<'a> ReadAt for Recorded<'a> {
    ghost use Rattle.std.specs.Prelude.{◌++◌, ◌⊎◌, ◌≤◌, ◌^◌, length, Some};
    ghost use Rattle.osm_files.specs.Recorded.{all_bytes, HasFailure};

    ghost bytes = { λ s. Some (s.front ++ all_bytes s.results) };

    ghost fails = { λ s. HasFailure s.results
        ⊎ (2 ^ 64 ≤ length (s.front ++ all_bytes s.results)) };

    fn size(&self) -> Result<u64, Broken> {
        let mut size = self.front.len() as u64;
        'results: for result in self.rest() {
            match result {
                Err(Broken) => {}
                Ok(bytes) => {
                    let more = bytes.len() as u64;
                    if more > u64::MAX - size {
                        return Err(Broken);
                    }
                    size += more;
                }
            }
        }
        Ok(size)
    }

    fn read_at(&self, buffer: &mut [u8], offset: u64) -> Result<usize, Broken> {
        match self.result_at(offset) {
            None => Ok(0),
            Some(Ok(bytes)) => ReadAt::read_at(&bytes, buffer, 0),
            Some(Err(Broken)) => Err(Broken),
        }
    }
}

#[cfg(test)]
mod tests;
