//! The run of a plan: its steps in new mirrors, and the files of its write lines.
ghost use Rattle.std.specs.Prelude.{◌≡◌, ◌<◌, length, map, IfOk, IfErr};
ghost use Rattle.std.specs.List.{All};
ghost use Rattle.osm_files.specs.Spell.{spell};
ghost use Rattle.osm_mirror.specs.fleet.Event.{events_of};
ghost use Rattle.osm_mirror.specs.fleet.Fleet.{Converges, mirror_at};
ghost use Rattle.osm_mirror.specs.fleet.Mirror.{new_mirror, WhyNotSpelled};
ghost use Rattle.osm_mirror.specs.fleet.Plan.{NamesItsMirrors};
ghost use Rattle.osm_mirror.specs.fleet.PlanRun.{refused_count, lines_to_write};

use crate::fleet::Fleet;
use crate::fleet::event::{Reply, events_of};
use crate::fleet::plan::Plan;
use crate::fleet::plan_line::PlanWrite;
use osm_files::Fault;
use osm_model::Memory;
use std::alloc::Global;

/// The mirrors of a plan after its steps, and the reply to each step.
#[derive(Drop)]
pub struct PlanRun {
    /// The mirrors.
    pub fleet: Fleet,
    /// The replies, in the order of the steps.
    pub replies: Vec<Reply>,
}

impl PlanRun {
    /// Runs the steps of `plan` in new mirrors. `files` has for each step the bytes of the file that it takes; those
    /// for a step that takes no file don't count.
    ///
    /// # Errors
    ///
    /// `Memory` if memory runs out before the first step. If it runs out later, a reply reports it.
    pub fn of_plan(alloc: Global, plan: &Plan, files: &[&[u8]]) -> Result<PlanRun, Memory>
        requires named { NamesItsMirrors plan.now }
        requires files { length files.now ≡ length plan.now.steps.items }
        ensures run { IfOk result (λ run. Converges (map new_mirror plan.now.mirrors.items)
            (events_of plan.now.steps.items files.now) run.replies.items run.fleet) }
        ensures size { IfOk result (λ run. length run.fleet ≡ length plan.now.mirrors.items) }
    {
        let mut fleet = Fleet::new(alloc, plan.mirrors.as_slice())?;
        let events = events_of(alloc, plan.steps.as_slice(), files)?;
        let replies = fleet.run(events.as_slice())?;
        Ok(PlanRun { fleet, replies })
    }

    /// The number of refused events.
    pub fn refused(&self) -> usize
        ensures { result ≡ refused_count self.now.replies.items }
    {
        let mut count = 0;
        'replies: for reply in self.replies.as_slice() {
            if *reply != Reply::Taken {
                count += 1;
            }
        }
        count
    }

    /// The write lines of `plan` that are run: all, or none if the plan is `strict` and an event was refused.
    pub fn writes<'p>(&self, plan: &'p Plan, strict: bool) -> &'p [PlanWrite]
        ensures lines { result.now ≡ lines_to_write strict self.now.replies.items plan.now.writes.items }
        ensures within { NamesItsMirrors plan.now → length self.now.fleet ≡ length plan.now.mirrors.items
            → All (λ write. write.mirror < length self.now.fleet) result.now }
    {
        if strict && self.refused() > 0 {
            &[]
        } else {
            plan.writes.as_slice()
        }
    }

    /// The bytes of the file of a write line: the one spelling of what its mirror holds. The mirror must be one of the
    /// fleet.
    ///
    /// # Errors
    ///
    /// `Memory`; or `TooLong`, with the output number 1, if the file would have 2^62 bytes or more.
    pub fn file_of(&self, write: &PlanWrite) -> Result<Vec<u8>, Fault>
        requires { write.now.mirror < length self.now.fleet }
        ensures written { IfOk result (λ file.
            file.items ≡ spell write.now.format (mirror_at self.now.fleet write.now.mirror).held) }
        ensures refused { IfErr result
            (WhyNotSpelled write.now.format (mirror_at self.now.fleet write.now.mirror).held) }
    {
        self.fleet.mirror(write.mirror).write(write.format)
    }
}

#[cfg(test)]
mod tests;
