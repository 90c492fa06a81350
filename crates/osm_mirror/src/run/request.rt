//! Requests: what the commands that make a file write, by their arguments.
ghost use Rattle.std.specs.Prelude.{◌≡◌, ◌≢◌, Some, None, IfSome, MatchResult};
ghost use Rattle.opl_line.specs.Time.{reading_time};
ghost use Rattle.osm_mirror.specs.declared.run.request.Command.{Command};
ghost use Rattle.osm_mirror.specs.run.Request.{command_name, order_for, tries_largest};
ghost use Rattle.osm_mirror.specs.run.Request.{applied_selection, filtered_selection};
ghost use Rattle.osm_mirror.specs.run.Request.{moment_of, selection_for, job_for, requested_job};

use crate::run::files_job::{FilesJob, Order};
use crate::run::inputs_job::InputsJob;
use crate::run::shard::Shard;
use crate::run::shard_job::ShardJob;
use opl_line::read_time;
use osm_files::{EndRule, Format};
use osm_merge::Selection;
use thiserror::Error;

/// A command that makes one file from files.
#[derive(Clone, Copy, Debug, PartialEq, Eq)]
pub enum Command {
    /// Merges sorted files.
    Merge,
    /// Applies changes.
    Apply,
    /// Sorts files in any order.
    Sort,
    /// Writes the state at a moment, or the versions of a period.
    TimeFilter,
}

impl Command {
    /// The name of the command in the arguments.
    pub fn name(&self) -> &'static str
        ensures { result.now ≡ command_name self.now }
    {
        match self {
            Command::Merge => "merge",
            Command::Apply => "apply",
            Command::Sort => "sort",
            Command::TimeFilter => "time-filter",
        }
    }

    /// The command with this name, if there is one.
    pub fn named(name: &str) -> Option<Command>
        ensures named { IfSome result (λ command. name.now ≡ command_name command) }
        ensures none { result ≡ None → (command : Command) → name.now ≢ command_name command }
    {
        match name {
            "merge" => Some(Command::Merge),
            "apply" => Some(Command::Apply),
            "sort" => Some(Command::Sort),
            "time-filter" => Some(Command::TimeFilter),
            _ => None,
        }
    }
}

/// A request for a file: a command, and those of its arguments that determine what it writes. A command ignores the
/// arguments that it doesn't take.
#[derive(Clone, Copy, Debug, PartialEq, Eq)]
pub struct FileRequest<'a> {
    /// The command, which decides which of the other fields count.
    pub command: Command,
    /// Whether `apply` writes all versions.
    pub with_history: bool,
    /// Whether `apply` writes deletions, too.
    pub with_deletions: bool,
    /// Whether each file has to be sorted. The files of `merge` always have to be.
    pub sorted: bool,
    /// The first time of `time-filter`.
    pub time: Option<&'a str>,
    /// The second time of `time-filter`, if it has two.
    pub end: Option<&'a str>,
    /// The format of the output.
    pub format: Format,
    /// The shard of the output that is written, or none if all of it is written. Then each file has to be sorted.
    pub shard: Option<Shard>,
    /// The rule for the end of each file of a job for a shard. The other jobs have a rule for each file.
    pub end_rule: EndRule,
}

impl<'a> FileRequest<'a> {
    /// The job for which the request asks.
    ///
    /// # Errors
    ///
    /// A fault of the times of `time-filter`.
    pub fn run(&self) -> Result<InputsJob, RequestFault<'a>>
        ensures { result ≡ requested_job self.now }
    {
        match self.selection() {
            Ok(selection) => Ok(self.job(selection)),
            Err(fault) => Err(fault),
        }
    }

    /// The job that writes what `selection` selects.
    fn job(&self, selection: Selection) -> InputsJob
        ensures { result ≡ job_for self.now.shard self.now selection }
    {
        match self.shard {
            None => InputsJob::Whole(FilesJob {
                selection,
                order: self.order(),
                tries_largest: self.tries_largest(),
                format: self.format,
            }),
            Some(shard) => InputsJob::Part(ShardJob {
                shard,
                selection,
                format: self.format,
                end: self.end_rule,
            }),
        }
    }

    /// The order that the versions of each file must have.
    fn order(&self) -> Order
        ensures { result ≡ order_for self.now.command self.now.sorted }
    {
        match self.command {
            Command::Merge => Order::Sorted,
            _ if self.sorted => Order::Sorted,
            _ => Order::Any,
        }
    }

    /// Whether the largest file may be taken as sorted without a look at all of it. The map that changes are applied
    /// to, and that is filtered by time, often is.
    fn tries_largest(&self) -> bool
        ensures { result ≡ tries_largest self.now.command }
    {
        match self.command {
            Command::Apply | Command::TimeFilter => true,
            Command::Merge | Command::Sort => false,
        }
    }

    /// The versions that the command writes.
    fn selection(&self) -> Result<Selection, RequestFault<'a>>
        ensures { result ≡ selection_for self.now.command self.now }
    {
        match self.command {
            Command::Merge | Command::Sort => Ok(Selection::All),
            Command::Apply => Ok(applied(self.with_history, self.with_deletions)),
            Command::TimeFilter => filtered(self.time, self.end),
        }
    }
}

/// The versions that `apply` writes.
fn applied(with_history: bool, with_deletions: bool) -> Selection
    ensures { result ≡ applied_selection with_history with_deletions }
{
    match (with_history, with_deletions) {
        (true, _) => Selection::All,
        (false, true) => Selection::Newest,
        (false, false) => Selection::NewestVisible,
    }
}

/// The versions that `time-filter` writes.
fn filtered<'a>(time: Option<&'a str>, end: Option<&'a str>) -> Result<Selection, RequestFault<'a>>
    ensures { result ≡ filtered_selection time.entry end.entry }
{
    match (time, end) {
        (None, _) => Err(RequestFault::NoTime),
        (Some(time), None) => Ok(Selection::StateVisible(moment(time)?)),
        (Some(time), Some(end)) => {
            let (from, to) = (moment(time)?, moment(end)?);
            if from < to {
                Ok(Selection::Between { from, to })
            } else {
                Err(RequestFault::NotAfterFirst { time: end })
            }
        }
    }
}

/// The moment that a text spells as `yyyy-mm-ddThh:mm:ssZ`, in seconds since 1970-01-01T00:00:00Z; `None` if it spells
/// none.
pub fn read_moment(text: &[u8]) -> Option<u32>
    ensures { MatchResult (reading_time text.now) (λ moment. result ≡ Some moment) (λ _. result ≡ None) }
{
    read_time(text).ok()
}

/// The moment that `time` spells.
fn moment<'a>(time: &'a str) -> Result<u32, RequestFault<'a>>
    ensures { result ≡ moment_of time.entry }
{
    read_moment(time.as_bytes()).ok_or(RequestFault::NotMoment { time })
}

/// Why the arguments of a command ask for no job.
#[derive(Clone, Copy, Debug, PartialEq, Eq, Error)]
pub enum RequestFault<'a> {
    /// `time-filter` has no time.
    #[error("no time is given")]
    NoTime,
    /// A time isn't an OPL time within the range of times.
    #[error("{time}: not a moment")]
    NotMoment {
        /// The time.
        time: &'a str,
    },
    /// The second time isn't after the first one.
    #[error("{time}: not after the first")]
    NotAfterFirst {
        /// The second time.
        time: &'a str,
    },
}

#[cfg(test)]
mod tests;
