//! Files split into runs, from the front on.
ghost use Rattle.std.specs.Prelude.{◌≡◌, [], ℕ, ◌<◌, ◌^◌, List, length, IfOk, OnErr};
ghost use Rattle.osm_files.specs.SortedRun as spec;

use crate::sorted_run::{BytesAtSplit, SortedRun};
use osm_model::Memory;
use std::alloc::Global;
use std::marker::Model;

/// A file split into runs: those that were split off its front, and the rest.
#[derive(Drop)]
pub struct SplitFile {
    /// The runs that were split off, in the file's order.
    fronts: Vec<SortedRun>,
    /// The run after them.
    rest: SortedRun,
}

impl Model for SplitFile {
    ghost use Rattle.osm_files.specs.SortedRun.{FileRuns};

    ghost Value = { FileRuns };

    ghost view = { λ file. record { fronts = file.fronts.items; rest = file.rest } };
}

impl SplitFile {
    /// A file that isn't split yet: its only run is the whole file.
    pub fn new(alloc: Global) -> SplitFile
        ensures runs { (file : List ℕ) → length file < 2 ^ 64 → spec.IsSplitIntoRuns file (spec.runs_of result) }
        ensures one { result ≡ record { fronts = []; rest = spec.whole_run } }
    {
        SplitFile {
            fronts: Vec::new(alloc),
            rest: SortedRun::whole(),
        }
    }

    /// The run after those that were split off.
    pub fn rest(&self) -> SortedRun
        ensures { result ≡ self.now.rest }
    {
        self.rest
    }

    /// Splits the rest before the byte at `offset` of the file, and returns the run that was split off; `None` if the
    /// rest can't be split there (`SortedRun::split`).
    ///
    /// If the file has the `bytes` of all calls, it is split into the runs. If also each run is a sorted file, a merge
    /// of the runs writes the same bytes as a merge of the file.
    ///
    /// # Errors
    ///
    /// Out of memory. The runs are unchanged.
    pub fn split(&mut self, offset: u64, bytes: BytesAtSplit) -> Result<Option<SortedRun>, Memory>
        ensures value { IfOk result (λ front.
            (self.new, front) ≡ spec.after_split self.old (spec.split_run self.old.rest offset bytes)) }
        ensures refused { OnErr result (self.new ≡ self.old) }
        ensures runs { (file : List ℕ) → spec.HasBytes file self.old.rest.start offset bytes
            → spec.IsSplitIntoRuns file (spec.runs_of self.old) → spec.IsSplitIntoRuns file (spec.runs_of self.new) }
    {
        let Some((front, rest)) = self.rest.split(offset, bytes) else {
            return Ok(None);
        };
        match self.fronts.push(front) {
            Ok(()) => {
                self.rest = rest;
                Ok(Some(front))
            }
            Err(_) => Err(Memory),
        }
    }

    /// The runs, in the file's order.
    ///
    /// # Errors
    ///
    /// Out of memory.
    pub fn into_runs(self) -> Result<Vec<SortedRun>, Memory>
        ensures { IfOk result (λ runs. runs.items ≡ spec.runs_of self) }
    {
        let SplitFile { fronts, rest } = self;
        let mut runs = fronts;
        match runs.push(rest) {
            Ok(()) => Ok(runs),
            Err(_) => Err(Memory),
        }
    }
}

#[cfg(test)]
mod tests;
