//! The arguments of a call: files, and words, which are the other arguments.
use crate::device::{Pace, Pieces};
use anyhow::{Result, bail};
use osm_files::{Broken, Format, FromRead, Input, ReadAt};
use std::alloc::Global;
use std::fs;
use std::rt::Files;

/// A file, and its pace.
#[derive(Drop)]
struct File {
    bytes: Vec<u8>,
    pace: Pace,
}

/// A file that is read at offsets, at a pace.
#[derive(Clone, Copy)]
pub struct PacedFile<'a> {
    bytes: &'a [u8],
    pace: Pace,
}

impl ReadAt for PacedFile<'_> {
    ghost use Rattle.std.specs.Prelude.{None};

    ghost bytes = { λ _. None };

    ghost fails = { λ _. Unit {0} };

    fn size(&self) -> Result<u64, Broken> {
        Ok(self.bytes.len() as u64)
    }

    fn read_at(&self, buffer: &mut [u8], offset: u64) -> Result<usize, Broken> {
        let start = offset.min(self.bytes.len() as u64) as usize;
        let mut rest = FromRead::new(Pieces::new(&self.bytes[start..], self.pace.after(start)));
        let count = rest.read(buffer);
        drop(rest);
        count
    }
}

/// The words and the files of a call.
#[derive(Drop)]
pub struct Given {
    words: Vec<String>,
    files: Vec<File>,
}

impl Given {
    /// Reads the files that the arguments `all` name. The argument of a file begins with `@`.
    pub fn read<R: Files + AllocGlobal>(rt: &R, all: &[String]) -> Result<Given> {
        let mut words = Vec::new(rt.alloc());
        let mut files = Vec::new(rt.alloc());
        for word in all {
            match word.as_str().strip_prefix('@') {
                Some(printed) => files.push(read_file(rt, printed)?)?,
                None => words.push(word.clone()?)?,
            }
        }
        Ok(Given { words, files })
    }

    /// The word at the index `index`.
    pub fn word(&self, index: usize) -> Result<&str> {
        match self.words.get(index) {
            Some(word) => Ok(word.as_str()),
            None => bail!("a word is missing"),
        }
    }

    /// The number of seconds in the word at the index `index`.
    pub fn time(&self, index: usize) -> Result<u32> {
        Ok(self.word(index)?.parse::<u32>()?)
    }

    /// The format and the pace of the output: the first word, such as `opl` or `o5m:1:20`.
    pub fn output(&self) -> Result<(Format, Pace)> {
        let mut parts = self.word(0)?.split(':');
        let format = format_of(parts.next().unwrap_or(""))?;
        Ok((format, Pace::of_parts(&mut parts)?))
    }

    /// The number of files.
    pub fn count(&self) -> usize {
        self.files.len()
    }

    /// The bytes of the file at the index `index`.
    pub fn file(&self, index: usize) -> Result<&[u8]> {
        match self.files.get(index) {
            Some(file) => Ok(file.bytes.as_slice()),
            None => bail!("a file is missing"),
        }
    }

    /// A reader of the file at the index `index`, at the pace of the file.
    pub fn reader(&self, index: usize) -> Result<FromRead<Pieces<'_>>> {
        match self.files.get(index) {
            Some(file) => Ok(FromRead::new(Pieces::new(&file.bytes, file.pace))),
            None => bail!("a file is missing"),
        }
    }

    /// All files, to be read at offsets, each at its pace.
    pub fn paced_files(&self, alloc: Global) -> Result<Vec<PacedFile<'_>>> {
        let mut files = Vec::new(alloc);
        for File { bytes, pace } in &self.files {
            files.push(PacedFile { bytes, pace: *pace })?;
        }
        Ok(files)
    }

    /// Readers of all files, each at the pace of its file.
    pub fn readers(&self, alloc: Global) -> Result<Vec<FromRead<Pieces<'_>>>> {
        let mut readers = Vec::new(alloc);
        for file in &self.files {
            readers.push(FromRead::new(Pieces::new(&file.bytes, file.pace)))?;
        }
        Ok(readers)
    }
}

/// Reads the file that an argument names. `printed` is the argument without its `@`.
fn read_file<R: Files + AllocGlobal>(rt: &R, printed: &str) -> Result<File> {
    let mut parts = printed.split(':');
    let bytes = fs::read(rt, parts.next().unwrap_or(""))?;
    let pace = Pace::of_parts(&mut parts)?;
    Ok(File { bytes, pace })
}

/// The format that has the name `name`.
fn format_of(name: &str) -> Result<Format> {
    match name {
        "opl" => Ok(Format::Opl),
        "o5m" => Ok(Format::O5m),
        "o5c" => Ok(Format::O5c),
        _ => bail!("there is no such format"),
    }
}
