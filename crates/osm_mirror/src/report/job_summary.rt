//! What a job that makes a file has read and written, for a line about it.
use crate::report::shown::Escaped;
use crate::run::{Command, Tally};
use osm_merge::{Counts, Progress, Relation};
use osm_model::Version;
use std::fmt;
use std::fmt::{Display, Formatter};

/// Observes a job, and counts what it wrote.
#[derive(Clone, Copy, Debug)]
pub struct JobTally {
    /// The tally of the versions that the job wrote.
    written: Tally,
    /// The number of keys for which the job read several versions with different data.
    shared_keys: u64,
    /// Whether the key read last is one of these.
    is_shared: bool,
}

impl JobTally {
    /// The tally of a job that has read nothing.
    pub fn new() -> JobTally {
        JobTally {
            written: Tally::new(),
            shared_keys: 0,
            is_shared: false,
        }
    }
}

impl Progress for JobTally {
    fn begin(&mut self) {
        *self = JobTally::new();
    }

    #[inline(always)]
    fn read(&mut self, _version: &Version, relation: Relation) {
        match relation {
            Relation::OtherKey => self.is_shared = false,
            Relation::OtherData => {
                self.shared_keys = self.shared_keys.saturating_add(u64::from(!self.is_shared));
                self.is_shared = true;
            }
            Relation::Dropped => {}
        }
    }

    #[inline(always)]
    fn written(&mut self, version: &Version) {
        self.written = self.written.with(version);
    }
}

/// A job that made a file. Its text is a line about the job, without a line feed. A clashing key has a visible and a
/// deleted version.
#[derive(Clone, Copy, Debug)]
pub struct JobSummary<'a> {
    /// The command that made the file.
    pub command: Command,
    /// The number of files that the job read.
    pub inputs: usize,
    /// The numbers of versions that the job read and wrote, and the number of clashing keys.
    pub counts: Counts,
    /// The kinds of the versions that it wrote, and the keys with several data.
    pub tally: JobTally,
    /// The time that it took, in milliseconds.
    pub milliseconds: u128,
    /// The name of the output.
    pub output: &'a str,
}

impl Display for JobSummary<'_> {
    fn fmt<W: fmt::Write>(&self, f: &mut Formatter<W>) -> fmt::Result {
        let Counts {
            read,
            written,
            clashes,
            ..
        } = self.counts;
        let JobTally {
            written: kinds,
            shared_keys,
            ..
        } = self.tally;
        let (seconds, tenths) = (self.milliseconds / 1000, self.milliseconds / 100 % 10);
        write!(
            f,
            "osm_hist: {}: {} inputs, ",
            self.command.name(),
            self.inputs
        )?;
        write!(f, "{read} versions read, {written} written ({kinds}), ")?;
        write!(
            f,
            "{shared_keys} keys with several data, {clashes} clashing keys, "
        )?;
        write!(f, "{seconds}.{tenths} s, to {}", Escaped(self.output))
    }
}

#[cfg(test)]
mod tests;
