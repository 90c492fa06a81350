//! The sources of files: a stream for each sorted file, and a history for each of the others. Each job opens its
//! sources here.
ghost use Rattle.std.specs.Prelude.{◌≡◌, [], ◌∷◌, ◌++◌, length, IfOk, IfErr, OnOk};
ghost use Rattle.osm_files.specs.Fault.{memory_fault};
ghost use Rattle.osm_merge.specs.Giving.{SomeInputsGive};
ghost use Rattle.osm_files.specs.Input.{GivesOne};
ghost use Rattle.osm_mirror.specs.run.Given.{InputFileCanGive, file_by, IsOpened, AreOpened, IsUnopened};
ghost use Rattle.osm_mirror.specs.declared.run.files_job.Order.TheVariants as order;
ghost use Rattle.osm_mirror.specs.declared.run.input.ReadAs.TheVariants as read_as;

use crate::run::files_job::Order;
use crate::run::input::{InputFile, ReadAs};
use osm_files::{Fault, FileSource, HistorySource, Input, Source, load_ended};
use osm_merge::{Outside, Span, Within};
use osm_model::Version;
use std::alloc::Global;

/// The versions of a file, ascending.
#[derive(Drop)]
pub enum InputSource<R: Input> {
    /// The versions of a sorted file, which is read as it is needed.
    Streamed(FileSource<R>),
    /// The versions of a file that was read to its end.
    Held(HistorySource),
    /// The versions of a sorted file within a span.
    Sliced(Within<FileSource<R>>),
}

impl<R: Input> Source for InputSource<R> {
    ghost use Rattle.osm_mirror.specs.run.SourceRest.{SourceCanGive, source_one, left_of, input_of, failed_of};
    ghost use Rattle.osm_mirror.specs.run.SourceRest.{source_possible, source_ascends};

    ghost can_give = { λ s still. SourceCanGive R.can_give s still };

    ghost one = { λ s. source_one R.one s };

    ghost left = { λ s. left_of s };

    ghost input = { λ s. input_of s };

    ghost has_failed = { λ s. failed_of s };

    ghost possible = { λ s. source_possible R.one R.can_give R.possible s };

    ghost ascends = { λ s still h. source_ascends R.can_give s still h };

    #[inline(always)]
    fn next(&mut self) -> Result<Option<Version>, Fault> {
        match self {
            InputSource::Streamed(source) => source.next(),
            InputSource::Held(source) => source.next(),
            InputSource::Sliced(source) => source.next(),
        }
    }

    #[inline(always)]
    fn reuse(&mut self, version: Version) {
        match self {
            InputSource::Streamed(source) => source.reuse(version),
            InputSource::Held(source) => source.reuse(version),
            InputSource::Sliced(source) => source.reuse(version),
        }
    }
}

/// The files as sources, numbered from 0. The call reads each file of any order to its end, and nothing of the others.
///
/// # Errors
///
/// The fault of a file of any order that can't be read; or `Memory`.
pub fn open_inputs<R: Input + Drop>(
    alloc: Global,
    inputs: Vec<InputFile<R>>,
) -> Result<Vec<InputSource<R>>, Fault>
    ensures opened { IfOk result (λ sources. AreOpened R.can_give 0 inputs.items sources.items) }
    ensures refused { IfErr result (λ fault. SomeInputsGive (InputFileCanGive R.can_give) inputs.items (λ all.
        IsUnopened 0 all fault)) }
{
    let count = inputs.len();
    let mut sources = Vec::new(alloc);
    'files: for file in inputs {
        push_input(alloc, count, file, &mut sources)?;
    }
    Ok(sources)
}

/// Appends the source of `file`, which is one of `count` files, with the next number.
fn push_input<R: Input + Drop>(
    alloc: Global,
    count: usize,
    file: InputFile<R>,
    sources: &mut Vec<InputSource<R>>,
) -> Result<(), Fault>
    ensures pushed { OnOk result ((source : _) × (sources.new.items ≡ sources.old.items ++ source ∷ [])
        × IsOpened R.can_give (length sources.old.items) file source) }
    ensures refused { IfErr result (λ fault. GivesOne (InputFileCanGive R.can_give file) (λ given.
        IsUnopened (length sources.old.items) (given ∷ []) fault)) }
{
    Ok(sources.push(open_input(alloc, sources.len(), count, file)?)?)
}

/// The file as the source of the input number `input`, which is one of `count` inputs.
fn open_input<R: Input + Drop>(
    alloc: Global,
    input: usize,
    count: usize,
    file: InputFile<R>,
) -> Result<InputSource<R>, Fault>
    ensures opened { IfOk result (λ source. IsOpened R.can_give input file source) }
    ensures refused { IfErr result (λ fault. GivesOne (InputFileCanGive R.can_give file) (λ given.
        IsUnopened input (given ∷ []) fault)) }
{
    match file.read_as {
        ReadAs::InOrder(Order::Sorted) => stream(alloc, input, count, file),
        ReadAs::InOrder(Order::Any) => load(alloc, input, file),
        ReadAs::Within(span, outside) => slice(alloc, input, count, span, outside, file),
    }
}

/// A sorted file as the source of the input number `input`, which is one of `count` inputs. The call reads nothing.
fn stream<R: Input + Drop>(
    alloc: Global,
    input: usize,
    count: usize,
    file: InputFile<R>,
) -> Result<InputSource<R>, Fault>
    ensures opened { IfOk result (λ source.
        IsOpened R.can_give input (file_by file.end (read_as.InOrder order.Sorted) file.reader) source) }
    ensures memory { IfErr result (λ fault. fault ≡ memory_fault) }
{
    let source = FileSource::with_peers(alloc, input, file.end, file.reader, count)?;
    Ok(InputSource::Streamed(source))
}

/// A sorted file within a span as the source of the input number `input`, which is one of `count` inputs. The call
/// reads nothing.
fn slice<R: Input + Drop>(
    alloc: Global,
    input: usize,
    count: usize,
    span: Span,
    outside: Outside,
    file: InputFile<R>,
) -> Result<InputSource<R>, Fault>
    ensures opened { IfOk result (λ source.
        IsOpened R.can_give input (file_by file.end (read_as.Within span outside) file.reader) source) }
    ensures memory { IfErr result (λ fault. fault ≡ memory_fault) }
{
    let within = FileSource::with_peers(alloc, input, file.end, file.reader, count)?;
    Ok(InputSource::Sliced(Within::new(outside, span, input, within)))
}

/// A file of any order as the source of the input number `input`. The call reads the file to its end.
fn load<R: Input + Drop>(
    alloc: Global,
    input: usize,
    file: InputFile<R>,
) -> Result<InputSource<R>, Fault>
    ensures opened { IfOk result (λ source.
        IsOpened R.can_give input (file_by file.end (read_as.InOrder order.Any) file.reader) source) }
    ensures refused { IfErr result (λ fault.
        GivesOne (InputFileCanGive R.can_give (file_by file.end (read_as.InOrder order.Any) file.reader)) (λ given.
        IsUnopened input (given ∷ []) fault)) }
{
    let loaded = load_ended(alloc, input, file.end, file.reader)?;
    Ok(InputSource::Held(HistorySource::new(loaded.history)))
}

#[cfg(test)]
mod tests;
