//! Fleets: mirrors that exchange files. Its modules are the mirrors, their events, and plans.
ghost use Rattle.std.specs.Prelude.{◌≡◌, ◌↔◌, ◌<◌, length, map, slice_set, IfOk, IsTrue, MatchResult, OnErr};
ghost use Rattle.std.specs.List.{All};
ghost use Rattle.osm_files.specs.Held.{Holds};
ghost use Rattle.osm_files.specs.Verdict.{held_by};
ghost use Rattle.osm_mirror.specs.fleet.Mirror.{new_mirror, after_taking, WhyNotTaken, WhyNotSpelled};
ghost use Rattle.osm_mirror.specs.fleet.Fleet.{mirror_at, IsShort, IsReplyTo, mirrors_after, Converges};
ghost use Rattle.osm_mirror.specs.fleet.Event.{IsWithin};

mod event;
mod keep;
mod mirror;
mod plan;
mod plan_fault;
mod plan_line;
mod plan_run;

pub use event::{Event, MirrorEvent, Replies, Reply, Step, events_of, files_at};
pub use keep::{Keep, Taken};
pub use mirror::Mirror;
use osm_files::{Fault, Format};
use osm_model::Memory;
pub use plan::{Plan, line_of_number, line_of_part, read_plan};
pub use plan_fault::{PlanFault, PlanReason};
pub use plan_line::PlanWrite;
pub use plan_run::PlanRun;
use std::alloc::Global;
use std::marker::Model;

/// Mirrors that take files and pass files to each other. They are numbered from 0.
#[derive(Drop)]
pub struct Fleet {
    mirrors: Vec<Mirror>,
}

impl Model for Fleet {
    ghost use Rattle.std.specs.Prelude.{List};
    ghost use Rattle.osm_mirror.specs.fleet.Mirror.{MirrorData, mirrors_code};
    ghost use Rattle.osm_mirror.specs.fleet.Fleet.{AreOwnSnapshots};

    ghost Value = { List MirrorData };

    ghost coded = { mirrors_code };

    ghost view = { λ f. f.mirrors.items };

    ghost invariant = { λ f. AreOwnSnapshots f.mirrors.items };
}

impl Fleet {
    /// A fleet of one new mirror for each of `kinds`, in their order. The mirrors hold nothing yet.
    ///
    /// # Errors
    ///
    /// Only out of memory.
    pub fn new(alloc: Global, kinds: &[Keep]) -> Result<Fleet, Memory>
        ensures { IfOk result (λ fleet. fleet ≡ map new_mirror kinds.now) }
    {
        let mut mirrors = Vec::new(alloc);
        for keep in kinds {
            mirrors.push(Mirror::new(alloc, *keep))?;
        }
        Ok(Fleet { mirrors })
    }

    /// The number of mirrors, which never changes.
    pub fn len(&self) -> usize
        ensures { result ≡ length self.now }
    {
        self.mirrors.len()
    }

    /// The mirror with the number `place`, which must be below the number of mirrors.
    pub fn mirror(&self, place: usize) -> &Mirror
        requires { place < length self.now }
        ensures { result.now ≡ mirror_at self.now place }
    {
        &self.mirrors[place]
    }

    /// Whether `events` may be run: each mirror number in them is below the number of mirrors.
    pub fn may_run(&self, events: &[Event]) -> bool
        ensures { IsTrue result ↔ All (IsWithin (length self.now)) events.now }
    {
        are_within(self.mirrors.len(), events)
    }

    /// Runs `events` in sequence, and returns a reply to each. Each mirror number in them must be below the number of
    /// mirrors.
    ///
    /// For all events, in any order, with any repeats and refusals, each mirror's snapshot is afterwards the snapshot
    /// of all versions that reached it. A latest mirror holds exactly that snapshot. A full mirror holds all versions
    /// that reached it, if they came only through full mirrors. `Pass` and `Restart` write and read whole files, as
    /// mirrors on different machines would.
    ///
    /// # Errors
    ///
    /// `Memory` if memory runs out for the list of replies; then no event has run. If memory runs out later, a reply
    /// reports it.
    pub fn run(&mut self, events: &[Event]) -> Result<Vec<Reply>, Memory>
        requires { All (IsWithin (length self.old)) events.now }
        ensures run { IfOk result (λ replies. Converges self.old events.now replies.items self.new) }
        ensures unchanged { OnErr result (self.new ≡ self.old) }
    {
        let alloc = *self.mirrors.allocator();
        let mut replies = Vec::with_capacity(alloc, events.len())?;
        for event in events {
            let reply = self.reply_to(event);
            replies.push_reserved(reply);
        }
        Ok(replies)
    }

    /// Runs one event, and returns the reply to it.
    fn reply_to(&mut self, event: &Event) -> Reply
        requires { IsWithin (length self.old) event.now }
        ensures reply { IsReplyTo self.old event.now result }
        ensures mirrors { self.new ≡ mirrors_after self.old event.now result }
    {
        match *event {
            Event::Take { mirror, file } => match self.take(mirror, file) {
                Ok(()) => Reply::Taken,
                Err(fault) => Reply::Refused(fault),
            },
            Event::Pass { from, to, format } => match self.pass(from, to, format) {
                Ok(()) => Reply::Taken,
                Err(fault) => Reply::Refused(fault),
            },
            Event::Restart { mirror, format } => match self.restart(mirror, format) {
                Ok(()) => Reply::Taken,
                Err(fault) => Reply::Refused(fault),
            },
        }
    }

    /// A mirror takes a file.
    fn take(&mut self, mirror: usize, file: &[u8]) -> Result<(), Fault>
        requires { mirror < length self.old }
        ensures reply { MatchResult result (λ _. Holds file.now (held_by file.now)) (WhyNotTaken file.now) }
        ensures mirrors { MatchResult result
            (λ _. self.new ≡ slice_set self.old mirror (after_taking (mirror_at self.old mirror) (held_by file.now)))
            (λ _. self.new ≡ self.old) }
    {
        let mirror = &mut self.mirrors[mirror];
        match mirror.take(file) {
            Ok(_) => Ok(()),
            Err(fault) => Err(fault),
        }
    }

    /// A mirror takes the file that another one writes, or that it writes itself.
    fn pass(&mut self, from: usize, to: usize, format: Format) -> Result<(), Fault>
        requires { (from < length self.old) × (to < length self.old) }
        ensures reply { MatchResult result (λ _. IsShort format (mirror_at self.old from).held)
            (WhyNotSpelled format (mirror_at self.old from).held) }
        ensures mirrors { MatchResult result
            (λ _. self.new ≡ slice_set self.old to
            (after_taking (mirror_at self.old to) (mirror_at self.old from).held))
            (λ _. self.new ≡ self.old) }
    {
        let file = self.mirrors[from].write(format)?;
        self.take(to, &file)
    }

    /// A new mirror takes the file that the old one writes, and replaces the old one.
    fn restart(&mut self, mirror: usize, format: Format) -> Result<(), Fault>
        requires { mirror < length self.old }
        ensures reply { MatchResult result
            (λ _. IsShort format (mirror_at self.old mirror).held)
            (WhyNotSpelled format (mirror_at self.old mirror).held) }
        ensures mirrors { MatchResult result
            (λ _. self.new ≡ slice_set self.old mirror
            (after_taking (new_mirror (mirror_at self.old mirror).keep) (mirror_at self.old mirror).held))
            (λ _. self.new ≡ self.old) }
    {
        let old = &self.mirrors[mirror];
        let file = old.write(format)?;
        let mut new = old.new_like();
        new.take(&file)?;
        self.mirrors[mirror] = new;
        Ok(())
    }
}

/// Whether all mirror numbers in `events` are below `count`.
fn are_within(count: usize, events: &[Event]) -> bool
    ensures { IsTrue result ↔ All (IsWithin count) events.now }
{
    for event in events {
        if !event.names_mirrors(count) {
            return false;
        }
    }
    true
}

#[cfg(test)]
mod tests;
