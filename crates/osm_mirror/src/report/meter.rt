//! Reports on standard error during a job and after it.
use crate::report::bytes_read::{BytesRead, is_report_due};
use crate::report::job_summary::JobTally;
use osm_merge::{Counts, Progress, Relation};
use osm_model::Version;
use std::cell::{Cell, RefCell};
use std::fmt::Display;
use std::io::{IsTerminal, Write};
use std::time::{Clock, Duration};

/// Moves a terminal to the start of its line, and clears the line.
const CLEAR_LINE: &str = "\r\x1b[K";

/// Reports during a job. On a terminal a report overwrites the one before, at most once in half a second. Elsewhere
/// each report is a line, at most once a minute. If standard error fails, nothing can report it.
#[derive(Drop)]
pub struct Meter<'a, C, E> {
    clock: &'a C,
    err: RefCell<&'a mut E>,
    /// Whether reports are wanted during the job.
    is_wanted: bool,
    is_terminal: bool,
    start: Duration,
    last: Cell<Duration>,
    /// The number of bytes that the job read.
    bytes: Cell<u64>,
    /// What the job wrote.
    tally: Cell<JobTally>,
    /// The size of all input files in bytes, if it is known.
    size: Cell<Option<u64>>,
}

impl<'a, C: Clock, E: Write + IsTerminal> Meter<'a, C, E> {
    /// A meter of a job that begins now.
    pub fn new(clock: &'a C, err: &'a mut E, is_wanted: bool) -> Meter<'a, C, E> {
        let start = now(clock);
        let is_terminal = err.is_terminal();
        Meter {
            clock,
            err: RefCell::new(err),
            is_wanted,
            is_terminal,
            start,
            last: Cell::new(start),
            bytes: Cell::new(0),
            tally: Cell::new(JobTally::new()),
            size: Cell::new(Some(0)),
        }
    }

    /// Adds the size of an input file in bytes, if it is known. Otherwise that of all isn't, either.
    pub fn add_size(&self, size: Option<u64>) {
        let all = self.size.get().and_then(|all| all.checked_add(size?));
        self.size.set(all);
    }

    /// Adds `count` to the bytes that the job read, and reports if the interval has passed.
    pub fn count(&self, count: usize) {
        if !self.is_wanted {
            return;
        }
        let bytes = self.bytes.get().saturating_add(count as u64);
        self.bytes.set(bytes);
        let now = now(self.clock);
        let since_last = now.saturating_sub(self.last.get());
        if !is_report_due(self.is_terminal, since_last.as_millis()) {
            return;
        }
        self.last.set(now);
        let (before, after) = if self.is_terminal {
            (CLEAR_LINE, "")
        } else {
            ("", "\n")
        };
        let size = self.size.get();
        self.write(before, &BytesRead { bytes, size }, after);
    }

    /// Ends the reports. If the job wasn't refused, a last report has its counts.
    pub fn end(&self, counts: Option<&Counts>) {
        if !self.is_wanted {
            return;
        }
        if self.is_terminal {
            self.write(CLEAR_LINE, &"", "");
        }
        if let Some(Counts { read, written, .. }) = counts {
            self.print(&format_args!("{read} versions read, {written} written"));
        }
    }

    /// Prints the line `line`.
    pub fn print<T: Display>(&self, line: &T) {
        self.write("", line, "\n");
    }

    /// What the job wrote.
    pub fn tally(&self) -> JobTally {
        self.tally.get()
    }

    /// The time since the job began, in milliseconds.
    pub fn milliseconds(&self) -> u128 {
        now(self.clock).saturating_sub(self.start).as_millis()
    }

    /// Writes `text` between `before` and `after`.
    fn write<T: Display>(&self, before: &str, text: &T, after: &str) {
        if let Ok(mut err) = self.err.try_borrow_mut() {
            let _ = write!(err, "{before}{text}{after}");
            let _ = err.flush();
        }
    }
}

/// If a job begins anew, its bytes and versions count anew.
impl<'m, 'a, C, E> Progress for &'m Meter<'a, C, E> {
    fn begin(&mut self) {
        self.bytes.set(0);
        self.tally.set(JobTally::new());
    }

    #[inline(always)]
    fn read(&mut self, version: &Version, relation: Relation) {
        let mut tally = self.tally.get();
        tally.read(version, relation);
        self.tally.set(tally);
    }

    #[inline(always)]
    fn written(&mut self, version: &Version) {
        let mut tally = self.tally.get();
        tally.written(version);
        self.tally.set(tally);
    }
}

/// The time of `clock`, or 0 if the clock fails.
fn now<C: Clock>(clock: &C) -> Duration {
    clock.monotonic().unwrap_or(Duration::ZERO)
}
