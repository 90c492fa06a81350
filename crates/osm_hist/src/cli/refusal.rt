//! Refusals of a command, with their lines and exit statuses.
use clap::error::ErrorKind;
use osm_files::{Fault, Reason};
use osm_mirror::{EscapedOut, Memory, NamesFault, PlanFault, PlanReason, RequestFault, fault_text};
use std::alloc::{AllocError, Global};
use std::io;
use std::io::{IsTerminal, Write};
use thiserror::Error;

/// The reason for which a command is refused. Its text is the line for standard error, without its line feed.
#[derive(Debug, Drop, Error)]
pub(crate) enum Refusal<'a> {
    /// A mistake in the arguments. The text of `clap` has its own line feeds.
    #[error("{0}")]
    Arguments(clap::Error),
    #[error("the words are not UTF-8: {0}")]
    ArgumentsNotUtf8(String),
    #[error("a command is missing")]
    NoCommand,
    /// The argument of `--explain` is none of the reasons.
    #[error("{reason}: not a reason")]
    NotReason { reason: &'a str },
    /// The times of `time-filter` are no moment or no period.
    #[error("{0}")]
    Request(#[from] RequestFault<'a>),
    /// A shard isn't K/N with K from 1 to N and N up to 9999.
    #[error("{shard}: not a shard")]
    NotShard { shard: &'a str },
    #[error("{name}: not a regular file")]
    NotRegular { name: &'a str },
    #[error("--shard: no file is OPL")]
    ShardWithoutOpl,
    #[error("standard input: given twice")]
    StandardInputTwice,
    /// A list of names is refused. The fault is never `Memory`.
    #[error("{name}: {fault}")]
    List { name: &'a str, fault: NamesFault },
    #[error("{name}: not UTF-8")]
    ListNotUtf8 { name: &'a str },
    #[error("{output}.part: input is the output")]
    InputIsOutput { output: &'a str },
    /// The list of names is OUT.
    #[error("{output}: input is the output")]
    ListIsOutput { output: &'a str },
    #[error("standard output: input is the output")]
    StandardOutputIsInput,
    /// `code` is the system's number of the error, if the system refused to open or to read the file.
    #[error("{name}: cannot read")]
    CannotRead { name: &'a str, code: Option<i32> },
    #[error("{name}: changed during the run")]
    Changed { name: &'a str },
    /// OUT.part can't be made. `code` is the system's number of the error, if the system refused to make the file.
    #[error("{output}.part: cannot create")]
    CannotCreate { output: &'a str, code: Option<i32> },
    #[error("{name}: cannot write")]
    CannotWrite { name: &'a str },
    #[error("{output}.part: cannot sync")]
    CannotSync { output: &'a str },
    /// OUT is the new file, but its name isn't on the disk yet, perhaps.
    #[error("{output}: not synced")]
    NotSynced { output: &'a str },
    #[error("{output}: cannot rename")]
    CannotRename { output: &'a str },
    #[error("{}", .0.line)]
    File(FileRefusal<'a>),
    #[error("{name}: line {}: {}", .fault.line, .fault.reason.name())]
    Plan { name: &'a str, fault: PlanFault },
    #[error("{name}: {count} events refused")]
    EventsRefused { name: &'a str, count: usize },
    /// Keys of the files have a visible and a deleted version.
    #[error("{output}: {count} keys are visible and deleted")]
    Clashes { output: &'a str, count: u64 },
    #[error("out of memory")]
    Memory(#[from(alloc)] AllocError),
    #[error("standard output: cannot write")]
    StandardOutput,
}

/// The refusal of a file.
#[derive(Debug, Drop)]
pub(crate) struct FileRefusal<'a> {
    /// The line that reports it.
    line: String,
    pub(super) name: &'a str,
    pub(super) fault: Fault,
    /// The system's number of a write error, if it is known.
    pub(super) code: Option<i32>,
}

impl<'a> Refusal<'a> {
    /// The refusal of the arguments by `clap`.
    pub(crate) fn of_arguments(error: clap::Error) -> Refusal<'a> {
        match error.kind() {
            ErrorKind::OutOfMemory => Refusal::Memory(AllocError),
            _ => Refusal::Arguments(error),
        }
    }

    /// The refusal of the file `name`. `code` is the system's number of a write error, if it is known.
    pub(crate) fn of_fault(alloc: Global, fault: Fault, name: &'a str, code: Option<i32>) -> Self {
        match fault_text(alloc, &fault, &[], name) {
            Ok(line) => Refusal::File(FileRefusal {
                line,
                name,
                fault,
                code,
            }),
            Err(_) => Refusal::Memory(AllocError),
        }
    }

    /// The refusal of a file that the system didn't open or read.
    pub(crate) fn unread(name: &'a str, error: &io::Error) -> Refusal<'a> {
        let code = error.raw_os_error();
        Refusal::CannotRead { name, code }
    }

    /// The refusal of the list of names in the file `name`.
    pub(crate) fn of_list(fault: NamesFault, name: &'a str) -> Refusal<'a> {
        match fault {
            NamesFault::Memory => Refusal::Memory(AllocError),
            _ => Refusal::List { name, fault },
        }
    }

    /// The refusal of the plan in the file `name`.
    pub(crate) fn of_plan(fault: PlanFault, name: &'a str) -> Refusal<'a> {
        match fault.reason {
            PlanReason::Memory => Refusal::Memory(AllocError),
            _ => Refusal::Plan { name, fault },
        }
    }

    /// The place of the fault of a refused file, if it has one, and the reason.
    pub(crate) fn cause(&self) -> (Option<u64>, &'static str) {
        match self {
            Refusal::File(file) if file.fault.reason != Reason::Memory => {
                (Some(file.fault.place), file.fault.reason.name())
            }
            Refusal::CannotRead { .. } => (None, "cannot read"),
            Refusal::Changed { .. } => (None, "changed during the run"),
            _ => (None, "out of memory"),
        }
    }

    /// Writes the line and returns the exit status. On a terminal the control characters of names are escaped.
    pub(crate) fn report<E: Write + IsTerminal>(&self, err: &mut E) -> u8 {
        let _ = match self {
            Refusal::Arguments(error) => write!(err, "{error}"),
            refusal if err.is_terminal() => {
                write!(EscapedOut(err), "{refusal}").and_then(|()| writeln!(err))
            }
            refusal => writeln!(err, "{refusal}"),
        };
        let _ = err.flush();
        self.status()
    }

    /// The exit status: 1 if a file, memory or an output failed, 2 for a mistake of the user.
    fn status(&self) -> u8 {
        match self {
            Refusal::CannotRead { .. }
            | Refusal::Changed { .. }
            | Refusal::CannotCreate { .. }
            | Refusal::CannotWrite { .. }
            | Refusal::CannotSync { .. }
            | Refusal::NotSynced { .. }
            | Refusal::CannotRename { .. }
            | Refusal::File(..)
            | Refusal::EventsRefused { .. }
            | Refusal::Clashes { .. }
            | Refusal::Memory(_)
            | Refusal::StandardOutput => 1,
            _ => 2,
        }
    }
}

impl<'a> From<Memory> for Refusal<'a> {
    fn from(_error: Memory) -> Refusal<'a> {
        Refusal::Memory(AllocError)
    }
}
