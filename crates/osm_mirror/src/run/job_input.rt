//! The open inputs of a job, as the files of the job.
ghost use Rattle.std.specs.Prelude.{IfOk, IfErr};
ghost use Rattle.std.specs.Vec.Iter.{into_iter_items};
ghost use Rattle.osm_mirror.specs.run.JobInput.{AreFilesOf, IsFileOf, IsUnmatched, AreRegularFilesOf, HasStream};

use crate::run::files_job::JobFile;
use osm_files::{EndRule, Fault};
use std::alloc::Global;
use std::vec::IntoIter;

/// An open input of a job: a regular file, or a stream, which isn't part of it.
#[derive(Drop)]
pub struct JobInput<N, F> {
    /// What the caller notes of the input, such as its name.
    pub note: N,
    /// The regular file; none if the input is a stream.
    pub regular: Option<F>,
    /// The rule for its end.
    pub end: EndRule,
}

/// The files of a job over `inputs`, one for each, in their order: the regular file of the input, or if it has none,
/// the next one of `streams`.
///
/// # Errors
///
/// `Memory`; or `Failed` if the number of streams isn't that of the inputs without a regular file.
pub(crate) fn job_files<'f, N, F, R: Drop>(
    alloc: Global,
    inputs: &'f [JobInput<N, F>],
    streams: Vec<R>,
) -> Result<Vec<JobFile<'f, F, R>>, Fault>
    ensures files { IfOk result (λ files. AreFilesOf inputs.now streams.items files.items) }
    ensures refused { IfErr result (IsUnmatched inputs.now streams.items) }
{
    let mut files = Vec::new(alloc);
    let mut streams = streams.into_iter();
    'inputs: for index in 0..inputs.len() {
        match file_of(&inputs[index], &mut streams) {
            Some(file) => files.push(file)?,
            None => return Err(Fault::failed(index)),
        }
    }
    match streams.next() {
        Some(_) => Err(Fault::failed(inputs.len())),
        None => Ok(files),
    }
}

/// The file of one input: its regular file, or if it has none, the next one of `streams`; none if there is none.
fn file_of<'f, N, F, R>(
    input: &'f JobInput<N, F>,
    streams: &mut IntoIter<R>,
) -> Option<JobFile<'f, F, R>>
    ensures { IsFileOf input.now (into_iter_items streams.old) result (into_iter_items streams.new) }
{
    match &input.regular {
        Some(file) => Some(JobFile::File(file, input.end)),
        None => match streams.next() {
            Some(stream) => Some(JobFile::Stream(stream, input.end)),
            None => None,
        },
    }
}

/// The regular files of `inputs`, one for each, in their order.
///
/// # Errors
///
/// `Memory`; or `Failed`, with the number of the first input that is a stream.
pub(crate) fn regular_files<'f, N, F>(
    alloc: Global,
    inputs: &'f [JobInput<N, F>],
) -> Result<Vec<&'f F>, Fault>
    ensures files { IfOk result (λ files. AreRegularFilesOf inputs.now files.items) }
    ensures refused { IfErr result (HasStream inputs.now) }
{
    let mut files = Vec::new(alloc);
    'inputs: for index in 0..inputs.len() {
        match &inputs[index].regular {
            Some(file) => files.push(file)?,
            None => return Err(Fault::failed(index)),
        }
    }
    Ok(files)
}

#[cfg(test)]
mod tests;
