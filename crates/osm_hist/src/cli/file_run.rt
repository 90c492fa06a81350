//! Jobs that make one file from files.
use super::input::{OpenInput, StreamInput, open_input, refuse_changed, size_of};
use super::request::{OutputRequest, Request};
use super::shard::{has_more_o5, refuse_irregular};
use super::target::{Destination, Target, refuse_standard_output};
use super::{Host, Refusal};
use osm_files::{Buffered, CutBack, Fault, Output, Reason, ToWrite};
use osm_mirror::{Counts, JobSummary, Meter, NoProgress, Watch, run_inputs};
use std::io::{IsTerminal, Read, Write};

/// The size of the buffer of an output, in bytes.
const BUFFER: usize = 65536;

/// Makes OUT from files. A file is written as OUT.part, which becomes OUT at the end and is removed after a refusal.
/// Returns whether o5 files are the larger part of what was sharded.
pub(super) fn make_output<'a, I: Read + Drop, O: Write, E: Write + IsTerminal>(
    rt: &impl Host,
    request: &Request<'a>,
    output: &OutputRequest<'a>,
    mut stdin: Option<I>,
    out: &mut O,
    err: &mut E,
) -> Result<bool, Refusal<'a>> {
    let run = Runner {
        rt,
        request,
        output,
        target: Target::of_arg(rt, output.name),
        meter: Meter::new(rt, err, request.flags.progress),
    };
    run.make(&mut stdin, &mut *out)
}

/// A job over files, with its arguments and its reports.
#[derive(Drop)]
struct Runner<'a, 'q, 'f, 'r, 'e, R, E> {
    rt: &'r R,
    request: &'q Request<'a>,
    output: &'f OutputRequest<'a>,
    target: Target<'a>,
    meter: Meter<'e, R, E>,
}

impl<'a, 'q, 'f, 'r, 'e, R: Host, E: Write + IsTerminal> Runner<'a, 'q, 'f, 'r, 'e, R, E> {
    /// Opens the files and the output, makes the output, and reports. Returns whether o5 files are the larger part of
    /// what was sharded.
    fn make<I: Read + Drop, O: Write + Drop>(
        &self,
        stdin: &mut Option<I>,
        out: O,
    ) -> Result<bool, Refusal<'a>> {
        let mut streams = Vec::new(self.rt.alloc());
        let inputs = self.open(stdin, &mut streams)?;
        let inputs = inputs.as_slice();
        let has_more_o5 = self.output.asked.shard.is_some() && has_more_o5(self.rt, inputs)?;
        let mut destination = self.open_target(inputs, out)?;
        let counts = self.complete(inputs, streams, &mut destination)?;
        if self.request.flags.summary {
            self.meter.print(&JobSummary {
                command: self.output.asked.command,
                inputs: inputs.len(),
                counts,
                tally: self.meter.tally(),
                milliseconds: self.meter.milliseconds(),
                output: self.target.name(),
            });
        }
        Ok(has_more_o5)
    }

    /// Opens the files, each once. The meter watches their reads.
    fn open<'m, I: Read + Drop>(
        &'m self,
        stdin: &mut Option<I>,
        streams: &mut Vec<StreamInput<I, &'m Meter<'e, R, E>>>,
    ) -> Result<Vec<OpenInput<'a, &'m Meter<'e, R, E>>>, Refusal<'a>> {
        let (rt, files) = (self.rt, &self.request.files);
        let names = files.names.as_slice();
        self.target.refuse_part(names)?;
        if self.output.asked.shard.is_some() {
            refuse_irregular(rt, names)?;
        }
        let mut inputs = Vec::new(rt.alloc());
        for name in names {
            let input = open_input(rt, files, *name, stdin, &mut *streams, &self.meter)?;
            self.meter.add_size(size_of(&input));
            inputs.push(input)?;
        }
        if let Target::StandardOutput = self.target {
            refuse_standard_output(rt, files.list, names)?;
        }
        Ok(inputs)
    }

    /// Opens the output, which must be none of the files, nor the list of their names.
    fn open_target<O: Drop, M: Watch>(
        &self,
        inputs: &[OpenInput<'a, M>],
        out: O,
    ) -> Result<Destination<'a, O>, Refusal<'a>> {
        let mut ids = vec![in self.rt.alloc(); self.request.files.list]?;
        for input in inputs {
            ids.push(input.note.id)?;
        }
        self.target.open(self.rt, ids.as_slice(), out)
    }

    /// Writes the output, and completes it, or discards it after a refusal.
    fn complete<I: Read + Drop, O: Write + Drop, M: Watch>(
        &self,
        inputs: &[OpenInput<'a, M>],
        streams: Vec<StreamInput<I, M>>,
        destination: &mut Destination<'a, O>,
    ) -> Result<Counts, Refusal<'a>> {
        let written = self.write(inputs, streams, &mut *destination);
        let (taken, error) = (destination.taken, destination.failure.flatten());
        let counted = self.unless_changed(inputs, written, taken, error);
        self.meter.end(counted.as_ref().ok());
        destination.finish(self.rt, counted, self.request.flags.fsync)
    }

    /// Runs the job. The bytes of a refused job go to the writer, too, unless they were cut away. A job without reports
    /// isn't observed.
    fn write<I: Read + Drop, W: CutBack + Drop, M: Watch>(
        &self,
        inputs: &[OpenInput<'_, M>],
        streams: Vec<StreamInput<I, M>>,
        writer: W,
    ) -> Result<Counts, Fault> {
        let (alloc, job, mut progress) = (self.rt.alloc(), self.output.job, &self.meter);
        let mut output = Buffered::new(alloc, BUFFER, ToWrite::new(writer))?;
        let written = if self.request.flags.progress || self.request.flags.summary {
            run_inputs(alloc, job, inputs, streams, &mut output, &mut progress)
        } else {
            run_inputs(alloc, job, inputs, streams, &mut output, &mut NoProgress)
        };
        if written.is_err() {
            let _ = output.flush();
        }
        written
    }

    /// The outcome of the job, unless a file has changed since it was opened. `taken` is the number of bytes that the
    /// output took: the place of a `WriteFault` counts the bytes in the buffer, too, and is 0 if the output couldn't be
    /// cut back. `error` is the system's number of a write error.
    fn unless_changed<M: Watch>(
        &self,
        inputs: &[OpenInput<'a, M>],
        written: Result<Counts, Fault>,
        taken: u64,
        error: Option<i32>,
    ) -> Result<Counts, Refusal<'a>> {
        for input in inputs {
            refuse_changed(self.rt, input)?;
        }
        let (alloc, output, flags) = (self.rt.alloc(), self.target.name(), self.request.flags);
        match written {
            Ok(Counts { clashes: count, .. }) if count > 0 && flags.rejects_clashes => {
                Err(Refusal::Clashes { output, count })
            }
            Ok(counts) => Ok(counts),
            Err(mut fault) => {
                if fault.reason == Reason::WriteFault {
                    fault.place = fault.place.min(taken);
                }
                match inputs.get(fault.input) {
                    Some(input) => Err(Refusal::of_fault(alloc, fault, input.note.name, None)),
                    None => Err(Refusal::of_fault(alloc, fault, output, error)),
                }
            }
        }
    }
}
