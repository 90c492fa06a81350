//! Outputs that are cut back.
use super::{CutBack, CutBackOutput};
use crate::buffered::Buffered;
use crate::output::{Output, ToWrite, VecOut};
use std::alloc::Global;
use std::io;
use std::io::{ErrorKind, Write};

/// A writer into memory. It can be cut back unless `is_stream` is set, and then fails. It has room for `room` bytes.
#[derive(Drop)]
struct Memory<'a> {
    taken: &'a mut Vec<u8>,
    room: usize,
    is_stream: bool,
}

impl Write for Memory<'_> {
    fn write(&mut self, bytes: &[u8]) -> io::Result<usize> {
        if self.taken.len() >= self.room {
            return Err(io::Error::from(ErrorKind::StorageFull));
        }
        self.taken.extend_from_slice(bytes)?;
        Ok(bytes.len())
    }

    fn flush(&mut self) -> io::Result<()> {
        Ok(())
    }
}

impl CutBack for Memory<'_> {
    ghost use Rattle.std.specs.Prelude.{not};

    ghost can_cut = { λ s. not s.is_stream };

    fn can_be_cut_back(&self) -> bool {
        !self.is_stream
    }

    fn length(&self) -> io::Result<u64> {
        Ok(self.taken.len() as u64)
    }

    fn cut_back(&mut self, length: u64) -> io::Result<()> {
        if self.is_stream {
            return Err(io::Error::from(ErrorKind::Unsupported));
        }
        self.taken.truncate(length as usize);
        Ok(())
    }
}

/// Writes `ab` and then `cde`, cuts back to the length `kept`, and writes `f`. Returns the length before the cut, and
/// whether the output was cut and whether all was written.
fn writes<W: CutBackOutput>(out: &mut W, kept: u64) -> (Option<u64>, bool, bool) {
    let _ = out.write(b"ab");
    let _ = out.write(b"cde");
    let length = out.length().ok();
    let is_cut = out.cut_back(kept).is_ok();
    let _ = out.write(b"f");
    (length, is_cut, out.flush().is_ok())
}

/// The results of `writes` to a writer with a buffer of `size` bytes, and the bytes that the writer took.
fn written(
    alloc: Global,
    size: usize,
    kept: u64,
    room: usize,
    is_stream: bool,
) -> (Option<u64>, bool, bool, Vec<u8>) {
    let mut taken = Vec::new(alloc);
    let mut results = (None, false, false);
    let memory = Memory {
        taken: &mut taken,
        room,
        is_stream,
    };
    if let Ok(mut out) = Buffered::new(alloc, size, ToWrite::new(memory)) {
        results = writes(&mut out, kept);
    }
    (results.0, results.1, results.2, taken)
}

#[test]
fn the_first_bytes_are_kept(rt: HostRuntime) {
    for size in [0usize, 2, 3, 4, 16] {
        for (kept, bytes) in [
            (0, b"f".as_slice()),
            (1, b"af"),
            (2, b"abf"),
            (4, b"abcdf"),
            (5, b"abcdef"),
            (9, b"abcdef"),
        ] {
            let (length, is_cut, is_whole, taken) = written(rt.alloc(), size, kept, 99, false);
            assert!(rt; length == Some(5) && is_cut && is_whole);
            assert_eq!(rt; taken.as_slice(), bytes);
        }
    }
    let mut out = VecOut::new(rt.alloc());
    assert_eq!(rt; writes(&mut out, 2), (Some(5), true, true));
    assert_eq!(rt; out.into_vec().as_slice(), b"abf".as_slice());
}

#[test]
fn an_output_that_cannot_be_cut_back_fails(rt: HostRuntime) {
    let (_, is_cut, is_whole, taken) = written(rt.alloc(), 2, 0, 99, true);
    assert!(rt; !is_cut && !is_whole);
    assert_eq!(rt; taken.as_slice(), b"abcde".as_slice());
}

#[test]
fn collected_bytes_need_no_room(rt: HostRuntime) {
    // The writer has no room: the bytes in the buffer are dropped.
    let (length, is_cut, is_whole, taken) = written(rt.alloc(), 16, 0, 0, false);
    assert!(rt; length == Some(5) && is_cut && !is_whole);
    assert!(rt; taken.is_empty());
    // The writer has failed before it is cut back, and stays so.
    let (_, is_cut, is_whole, taken) = written(rt.alloc(), 2, 0, 1, false);
    assert!(rt; is_cut && !is_whole);
    assert!(rt; taken.is_empty());
}
