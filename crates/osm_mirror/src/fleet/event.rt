//! Events of mirrors, and the replies of a fleet.
ghost use Rattle.std.specs.Prelude.{IsTrue, ◌≡◌, ◌↔◌, [], length, map, slice_get, option_map, unwrap_or, IfOk};
ghost use Rattle.osm_mirror.specs.fleet.Event as spec;
ghost use Rattle.osm_mirror.specs.fleet.Event.{IsWithin};

use osm_files::{Fault, Format, Reason};
use osm_model::Text;
use std::alloc::{AllocError, Global};
use std::fmt;
use std::fmt::{Display, Formatter};

/// An event of mirrors, which are numbered from 0. `F` is a file: its bytes in an [`Event`], its name in a [`Step`].
#[derive(Clone, Copy, Debug, PartialEq, Eq)]
pub enum MirrorEvent<F> {
    /// A mirror takes a file.
    Take {
        /// The number of the mirror.
        mirror: usize,
        /// The file, of any format.
        file: F,
    },
    /// A mirror takes the file that another one writes, or that it writes itself.
    Pass {
        /// The number of the mirror that writes.
        from: usize,
        /// The number of the mirror that takes.
        to: usize,
        /// The format that is written.
        format: Format,
    },
    /// A new mirror of the same kind takes the file that a mirror writes, and replaces that mirror.
    Restart {
        /// The number of the mirror.
        mirror: usize,
        /// The format that is written.
        format: Format,
    },
}

/// An event of a fleet. A file is its bytes.
pub type Event<'a> = MirrorEvent<&'a [u8]>;

/// A step of a plan. A file is its name.
pub type Step = MirrorEvent<Text>;

impl<F> MirrorEvent<F> {
    /// Whether all mirrors that the event names have numbers below `mirrors`.
    pub(crate) fn names_mirrors(&self, mirrors: usize) -> bool
        ensures { IsTrue result ↔ IsWithin mirrors self.now }
    {
        match self {
            MirrorEvent::Take { mirror, .. } | MirrorEvent::Restart { mirror, .. } => {
                *mirror < mirrors
            }
            MirrorEvent::Pass { from, to, .. } => *from < mirrors && *to < mirrors,
        }
    }
}

/// The bytes of the files with these indices; none for the index of no file.
pub fn files_at<'f>(
    alloc: Global,
    files: &'f [Vec<u8>],
    indices: &[usize],
) -> Result<Vec<&'f [u8]>, AllocError>
    ensures count { IfOk result (λ found. length found.items ≡ length indices.now) }
    ensures bytes { IfOk result (λ found. map (λ file. file.now) found.items
        ≡ map (λ i. unwrap_or (option_map (λ file. file.items) (slice_get files.now i)) []) indices.now) }
{
    let mut found: Vec<&'f [u8]> = Vec::new(alloc);
    'indices: for index in indices {
        found.push(file_at(files, *index))?;
    }
    Ok(found)
}

/// The bytes of the file with this index; none if there is no such file.
fn file_at<'f>(files: &'f [Vec<u8>], index: usize) -> &'f [u8]
    ensures { result.now ≡ unwrap_or (option_map (λ file. file.items) (slice_get files.now index)) [] }
{
    match files.get(index) {
        Some(file) => file.as_slice(),
        None => &[],
    }
}

/// The events of `steps`, in their order. `files` has for each step the bytes of the file that it takes; the bytes for
/// a step that takes no file don't count.
pub fn events_of<'f>(
    alloc: Global,
    steps: &[Step],
    files: &[&'f [u8]],
) -> Result<Vec<Event<'f>>, AllocError>
    requires { length files.now ≡ length steps.now }
    ensures { IfOk result (λ events. events.items ≡ spec.events_of steps.now files.now) }
{
    let mut events = Vec::new(alloc);
    'steps: for index in 0..steps.len() {
        let (step, file) = (&steps[index], files[index]);
        events.push(event_of(step, file))?;
    }
    Ok(events)
}

/// The event of `step`. `file` has the bytes of the file that the step takes, if it takes one.
fn event_of<'f>(step: &Step, file: &'f [u8]) -> Event<'f>
    ensures { result ≡ spec.event_of step.now file.entry }
{
    match *step {
        Step::Take { mirror, .. } => Event::Take { mirror, file },
        Step::Pass { from, to, format } => Event::Pass { from, to, format },
        Step::Restart { mirror, format } => Event::Restart { mirror, format },
    }
}

/// The reply to an event.
#[derive(Clone, Copy, Debug, PartialEq, Eq)]
pub enum Reply {
    /// The mirror took the file: the event's own, or the one that a mirror wrote.
    Taken,
    /// The mirror refused the file, and no mirror was changed. In the fault the input 0 is the file that a mirror
    /// takes, and the output 1 is the file that a mirror writes.
    Refused(Fault),
}

/// The reply as a command prints it: `Taken`, or as `Refused 40 NoEnd`.
impl Display for Reply {
    fn fmt<W: fmt::Write>(&self, f: &mut Formatter<W>) -> fmt::Result {
        match self {
            Reply::Taken => write!(f, "Taken"),
            Reply::Refused(fault) => match fault.reason {
                Reason::Memory => write!(f, "Refused out of memory"),
                reason => write!(f, "Refused {} {}", fault.place, reason.name()),
            },
        }
    }
}

/// The replies to events: a line for each, with the number of the event from 1.
#[derive(Clone, Copy, Debug)]
pub struct Replies<'a>(pub &'a [Reply]);

impl Display for Replies<'_> {
    fn fmt<W: fmt::Write>(&self, f: &mut Formatter<W>) -> fmt::Result {
        for (index, reply) in self.0.iter().enumerate() {
            write!(f, "{} {reply}\n", index + 1)?;
        }
        Ok(())
    }
}

#[cfg(test)]
mod tests;
