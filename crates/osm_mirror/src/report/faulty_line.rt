//! The line of a file that has a fault.
use std::io::Read;
use std::str;

/// The most bytes of a file that are read at a time.
const CHUNK: usize = 4096;

/// The most bytes of an object that are kept: a letter and an id.
const OBJECT: usize = 24;

/// A line of a file.
#[derive(Clone, Copy, Debug)]
pub struct FaultyLine {
    /// The number of the line, from 1.
    pub number: u64,
    /// The first bytes of the line.
    head: [u8; OBJECT],
    /// The number of these bytes.
    count: usize,
}

impl FaultyLine {
    /// Reads the file from its beginning up to the line that begins at `offset`. None if a read fails, or if
    /// the file ends before that line.
    pub fn read<R: Read>(file: &mut R, offset: u64) -> Option<FaultyLine> {
        let mut buffer = [0u8; CHUNK];
        let mut number = 1_u64;
        let mut left = offset;
        for _ in 0..u64::MAX {
            if left == 0 {
                break;
            }
            let most = left.min(CHUNK as u64) as usize;
            let count = file.read(&mut buffer[..most]).ok()?;
            if count == 0 {
                return None;
            }
            let ends = buffer[..count]
                .iter()
                .filter(|byte| **byte == b'\n')
                .count();
            number = number.saturating_add(ends as u64);
            left = left.saturating_sub(count as u64);
        }
        let mut head = [0u8; OBJECT];
        let count = file.read(&mut head).ok()?;
        Some(FaultyLine {
            number,
            head,
            count,
        })
    }

    /// The object with which the line begins: its bytes before the first one that is a blank, a control character or
    /// not ASCII.
    pub fn object(&self) -> &str {
        let head = &self.head[..self.count.min(OBJECT)];
        let end = head.iter().position(|byte| !byte.is_ascii_graphic());
        str::from_utf8(&head[..end.unwrap_or(head.len())]).unwrap_or("")
    }
}

#[cfg(test)]
mod tests;
