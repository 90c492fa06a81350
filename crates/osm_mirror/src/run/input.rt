//! Files to be read, each with the way in which its versions are read.
ghost use Rattle.std.specs.Prelude.{◌≡◌, map, IfOk, IfErr};
ghost use Rattle.osm_files.specs.Fault.{memory_fault};
ghost use Rattle.osm_mirror.specs.run.Given.{file_as};

use crate::run::files_job::Order;
use osm_files::{EndRule, Fault};
use osm_merge::{Outside, Span};
use std::alloc::Global;

/// The way in which the versions of a file are read.
#[derive(Clone, Copy, Debug, PartialEq, Eq)]
pub enum ReadAs {
    /// All versions, in this order. A sorted file is read as it is needed, one key at a time. A file of any order is
    /// read to its end before anything is written.
    InOrder(Order),
    /// Ascending by key, and only the versions of the objects within a span. The file is read as it is needed, one key
    /// at a time. In a whole file a version outside of the span is dropped. In a part of a file, which is to have only
    /// the versions within the span, it is refused.
    Within(Span, Outside),
}

/// A reader of a file, the way in which the file's versions are read, and the rule for the file's end.
#[derive(Drop)]
pub struct InputFile<R> {
    /// Gives the bytes of the file.
    pub reader: R,
    /// The order that its versions must have, or the span of those that count.
    pub read_as: ReadAs,
    /// How an OPL file must end. Otherwise it is refused as `NoEnd`, at its length.
    pub end: EndRule,
}

/// The files of `readers`, which are all read as `read_as`, and may end after any byte.
pub(crate) fn files_as<R: Drop>(
    alloc: Global,
    read_as: ReadAs,
    readers: Vec<R>,
) -> Result<Vec<InputFile<R>>, Fault>
    ensures files { IfOk result (λ files. files.items ≡ map (file_as read_as) readers.items) }
    ensures memory { IfErr result (λ fault. fault ≡ memory_fault) }
{
    let mut files = Vec::new(alloc);
    'inputs: for reader in readers {
        files.push(InputFile {
            reader,
            read_as,
            end: EndRule::Any,
        })?;
    }
    Ok(files)
}
