//! Plans: the mirrors of a fleet, their events, and the files that the mirrors write at the end.
ghost use Rattle.std.specs.Prelude.{◌≡◌, ◌⊎◌, OnOk, IfOk, IfErr};
ghost use Rattle.osm_mirror.specs.declared.fleet.plan_line.PlanLine.TheVariants as line;
ghost use Rattle.osm_mirror.specs.declared.fleet.plan_fault.PlanReason.TheVariants as why;
ghost use Rattle.osm_mirror.specs.fleet.PlanFault.{memory_fault};
ghost use Rattle.osm_mirror.specs.fleet.Plan.{PlanSpells, NamesItsMirrors, SpellsNoPlan, PlanFaultOf, LinesSpell};
ghost use Rattle.osm_mirror.specs.fleet.Plan.{IsFirstFault};
ghost use Rattle.osm_mirror.specs.fleet.Plan.{lines_of, parts_of, IsAdded, IsLineAdded, IsLineRefused, LineFault};

use crate::fleet::event::Step;
use crate::fleet::keep::Keep;
use crate::fleet::plan_fault::{PlanFault, PlanReason};
use crate::fleet::plan_line::{PlanLine, PlanWrite, read_plan_line};
use std::alloc::Global;
use std::str;

/// The mirrors of a fleet, their events, and the files that the mirrors write at the end.
#[derive(Debug, Drop)]
pub struct Plan {
    /// The kind of each mirror. The mirrors are numbered from 0, in this order.
    pub mirrors: Vec<Keep>,
    /// The events, in sequence.
    pub steps: Vec<Step>,
    /// The files that the mirrors write once all steps are done, in sequence.
    pub writes: Vec<PlanWrite>,
}

/// The plan that a text spells. Each mirror number in it is below the number of its mirrors.
///
/// # Errors
///
/// `NotUtf8` if the text isn't UTF-8. Otherwise the first faulty line and its reason: `BadWord`, `BadOrder` or
/// `NoMirror`, the first that applies in this order. `Memory` if memory ran out.
pub fn read_plan(alloc: Global, text: &[u8]) -> Result<Plan, PlanFault>
    ensures plan { IfOk result (PlanSpells text.now) }
    ensures named { IfOk result NamesItsMirrors }
    ensures fault { IfErr result (λ fault. (fault ≡ memory_fault) ⊎ PlanFaultOf text.now fault) }
    ensures none { IfErr result (λ fault. (fault ≡ memory_fault) ⊎ SpellsNoPlan text.now) }
{
    match str::from_utf8(text) {
        Ok(text) => read_lines(alloc, text),
        Err(_) => Err(PlanFault::at(0, PlanReason::NotUtf8)),
    }
}

/// The plan that the lines of a text spell.
///
/// # Errors
///
/// The first faulty line and its reason, or `Memory`.
fn read_lines(alloc: Global, text: &str) -> Result<Plan, PlanFault>
    ensures plan { IfOk result (λ plan. LinesSpell (lines_of text.now) (parts_of plan)) }
    ensures named { IfOk result NamesItsMirrors }
    ensures fault { IfErr result (λ fault. (fault ≡ memory_fault) ⊎ IsFirstFault text.now fault) }
{
    let mut plan = Plan {
        mirrors: Vec::new(alloc),
        steps: Vec::new(alloc),
        writes: Vec::new(alloc),
    };
    let mut number: u64 = 0;
    'lines: for line in text.split('\n') {
        number += 1;
        if let Err(reason) = plan.add_line(alloc, line) {
            return Err(PlanFault::at(number, reason));
        }
    }
    Ok(plan)
}

impl Plan {
    /// Adds the part that a line spells; an empty line spells none.
    ///
    /// # Errors
    ///
    /// The reason why the line is faulty, or `Memory`.
    fn add_line(&mut self, alloc: Global, line: &str) -> Result<(), PlanReason>
        ensures added { OnOk result (IsLineAdded line.now (parts_of self.old) (parts_of self.new)) }
        ensures refused { IfErr result (λ reason. (reason ≡ why.Memory)
            ⊎ LineFault (parts_of self.old) line.now reason) }
    {
        if line.is_empty() {
            return Ok(());
        }
        match read_plan_line(alloc, line)? {
            PlanLine::Mirror(keep) => self.add_mirror(keep),
            PlanLine::Step(step) => self.add_step(step),
            PlanLine::Write(write) => self.add_write(write),
        }
    }

    /// Adds a mirror.
    fn add_mirror(&mut self, keep: Keep) -> Result<(), PlanReason>
        ensures added { OnOk result (IsAdded (parts_of self.old) (line.Mirror keep) (parts_of self.new)) }
        ensures refused { IfErr result (λ reason. (reason ≡ why.Memory)
            ⊎ IsLineRefused (parts_of self.old) (line.Mirror keep) reason) }
    {
        if !self.steps.is_empty() || !self.writes.is_empty() {
            return Err(PlanReason::BadOrder);
        }
        Ok(self.mirrors.push(keep)?)
    }

    /// Adds a step.
    fn add_step(&mut self, step: Step) -> Result<(), PlanReason>
        ensures added { OnOk result (IsAdded (parts_of self.old) (line.Step step) (parts_of self.new)) }
        ensures refused { IfErr result (λ reason. (reason ≡ why.Memory)
            ⊎ IsLineRefused (parts_of self.old) (line.Step step) reason) }
    {
        if !self.writes.is_empty() {
            return Err(PlanReason::BadOrder);
        }
        if !step.names_mirrors(self.mirrors.len()) {
            return Err(PlanReason::NoMirror);
        }
        Ok(self.steps.push(step)?)
    }

    /// Adds a file that a mirror writes at the end.
    fn add_write(&mut self, write: PlanWrite) -> Result<(), PlanReason>
        ensures added { OnOk result (IsAdded (parts_of self.old) (line.Write write) (parts_of self.new)) }
        ensures refused { IfErr result (λ reason. (reason ≡ why.Memory)
            ⊎ IsLineRefused (parts_of self.old) (line.Write write) reason) }
    {
        if write.mirror >= self.mirrors.len() {
            return Err(PlanReason::NoMirror);
        }
        Ok(self.writes.push(write)?)
    }
}

/// The line of a plan's text that has the part with this index, and its number from 1. The parts are the mirrors, then
/// the steps, then the files that are written; an empty line has none.
pub fn line_of_part(text: &[u8], index: usize) -> Option<(usize, &str)> {
    let lines = str::from_utf8(text).ok()?.split('\n').enumerate();
    let (number, line) = lines.filter(|(_, line)| !line.is_empty()).nth(index)?;
    Some((number.saturating_add(1), line))
}

/// The line of a plan's text with this number, from 1.
pub fn line_of_number(text: &[u8], number: u64) -> Option<&str> {
    let index = usize::try_from(number.checked_sub(1)?).ok()?;
    str::from_utf8(text).ok()?.split('\n').nth(index)
}

#[cfg(test)]
mod tests;
