//! Extents of files, which are inputs. An extent has the bytes of a file from one offset up to another.
ghost use Rattle.std.specs.Prelude.{◌≡◌, ◌↔◌, nat_le};
ghost use Rattle.osm_files.specs.Input.{InputRest, GivesOne};
ghost use Rattle.osm_files.specs.ReadAt.{known_bytes};
ghost use Rattle.osm_files.specs.Extent.{ExtentCanGive, RunCanGive, extent_rest, framed};

use crate::input::{Broken, Input, SliceIn};
use crate::read_at::ReadAt;
use crate::sorted_run::SortedRun;

/// The bytes of a file from one offset up to another, and then the end of input. If the file ends earlier, the extent
/// fails there.
#[derive(Drop)]
pub struct Extent<'a, F: ReadAt> {
    file: &'a F,
    /// The offset in the file of the next byte.
    next: u64,
    /// The offset in the file after the last byte.
    end: u64,
}

impl<'a, F: ReadAt> Extent<'a, F> {
    /// The bytes of `file` from the offset `start` up to, but not at, the offset `end`. There are none if `end` is at
    /// most `start`.
    pub fn new(file: &'a F, start: u64, end: u64) -> Extent<'a, F>
        ensures file { result.file.now ≡ file.now }
        ensures start { result.next ≡ start }
        ensures end { result.end ≡ end }
    {
        Extent {
            file,
            next: start,
            end,
        }
    }

    /// Whether all bytes of the extent were read.
    fn is_read(&self) -> bool
        ensures { result ≡ nat_le self.now.end self.now.next }
    {
        self.end <= self.next
    }
}

impl<'a, F: ReadAt> Input for Extent<'a, F> {
    ghost use Rattle.osm_files.specs.ExtentGives.{extent_given};

    ghost can_give = { λ e c. ExtentCanGive (F.fails e.file.now) (F.bytes e.file.now) e.next e.end c };

    ghost one = { λ e. extent_rest e.next e.end (known_bytes (F.bytes e.file.now)) };

    ghost possible = { λ e. extent_given (F.fails e.file.now) (F.bytes e.file.now) e.next e.end };

    fn read(&mut self, buffer: &mut [u8]) -> Result<usize, Broken> {
        let left = self.end.saturating_sub(self.next);
        let most = left.min(buffer.len() as u64) as usize;
        if most == 0 {
            return Ok(0);
        }
        match self.file.read_at(&mut buffer[..most], self.next) {
            Ok(0) => Err(Broken),
            Ok(count) => {
                self.next += count as u64;
                Ok(count)
            }
            Err(Broken) => Err(Broken),
        }
    }
}

/// An extent with bytes before it and bytes after it, which aren't in the file. The bytes of a sorted run are of this
/// form.
#[derive(Drop)]
pub struct FramedExtent<'a, F: ReadAt> {
    before: SliceIn<'static>,
    extent: Extent<'a, F>,
    after: SliceIn<'static>,
}

impl<'a, F: ReadAt> FramedExtent<'a, F> {
    /// The bytes `before`, those of `extent`, and the bytes `after`. If `extent` fails, the bytes `after` aren't given.
    pub fn new(
        before: &'static [u8],
        extent: Extent<'a, F>,
        after: &'static [u8],
    ) -> FramedExtent<'a, F>
        ensures before { result.before ≡ before.now }
        ensures extent { result.extent ≡ extent.entry }
        ensures after { result.after ≡ after.now }
    {
        FramedExtent {
            before: SliceIn::new(before),
            extent,
            after: SliceIn::new(after),
        }
    }

    /// The bytes of `run`, a run of `file`, which has `size` bytes. It fails where the file ends earlier.
    pub fn of_run(file: &'a F, size: u64, run: SortedRun) -> FramedExtent<'a, F>
        ensures { (c : InputRest) → ⟦<FramedExtent<'a, F> as Input>⟧.can_give result c
            ↔ RunCanGive (F.fails file.now) (F.bytes file.now) run size c }
    {
        let end = run.start.saturating_add(run.size).min(size);
        FramedExtent::new(
            run.bytes_before(),
            Extent::new(file, run.start, end),
            run.bytes_after(),
        )
    }
}

impl<'a, F: ReadAt> Input for FramedExtent<'a, F> {
    ghost use Rattle.std.specs.Prelude.{refl};
    ghost use Rattle.osm_files.specs.ExtentGives.{extent_given};

    ghost can_give = { λ s c.
        GivesOne (ExtentCanGive (F.fails s.extent.file.now) (F.bytes s.extent.file.now) s.extent.next s.extent.end)
        (λ given. c ≡ framed s.before s.after given) };

    ghost one = { λ s. framed s.before s.after
        (extent_rest s.extent.next s.extent.end (known_bytes (F.bytes s.extent.file.now))) };

    ghost possible = { λ s. (
      extent_rest s.extent.next s.extent.end (known_bytes (F.bytes s.extent.file.now)),
      extent_given (F.fails s.extent.file.now) (F.bytes s.extent.file.now) s.extent.next s.extent.end,
      refl,
    ) };

    fn read(&mut self, buffer: &mut [u8]) -> Result<usize, Broken> {
        if !self.before.is_empty() {
            self.before.read(buffer)
        } else if !self.extent.is_read() {
            self.extent.read(buffer)
        } else {
            self.after.read(buffer)
        }
    }
}

#[cfg(test)]
mod tests;
