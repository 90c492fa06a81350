//! Inputs of runs over files: extents of open files, and streams.
use crate::extent::FramedExtent;
use crate::input::{Broken, Input};
use crate::read_at::ReadAt;

/// An input of a run over files.
#[derive(Drop)]
pub enum FileInput<'a, F: ReadAt, R> {
    /// An extent of a file that can be read at any offset.
    Extent(FramedExtent<'a, F>),
    /// A stream, which can be read once.
    Stream(R),
}

impl<'a, F: ReadAt, R: Input> Input for FileInput<'a, F, R> {
    ghost use Rattle.osm_files.specs.FileInput.{FileInputCanGive, one_of_input, input_gives_one};

    ghost can_give = { FileInputCanGive F.fails F.bytes R.can_give };

    ghost one = { one_of_input F.fails F.bytes R.can_give R.one };

    ghost possible = { input_gives_one F.fails F.bytes R.can_give R.one R.possible };

    fn read(&mut self, buffer: &mut [u8]) -> Result<usize, Broken> {
        match self {
            FileInput::Extent(extent) => extent.read(buffer),
            FileInput::Stream(stream) => stream.read(buffer),
        }
    }
}

#[cfg(test)]
mod tests;
