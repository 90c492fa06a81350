//! The job of a plan. Mirrors take files and pass on what they hold. At the end the job writes the files of the plan.
ghost use Rattle.std.specs.Prelude.{◌≡◌, ◌<◌, length, IfOk};
ghost use Rattle.std.specs.List.{All};
ghost use Rattle.osm_mirror.specs.fleet.Plan.{NamesItsMirrors};

use super::files::read_file;
use super::out_part::{FileId, id_of_regular, place_of};
use super::refusal::Refusal;
use super::target::{STANDARD, Target, refuse_standard_output};
use super::{Host, hint, print, write_whole};
use clap::ArgMatches;
use osm_files::{Fault, Reason};
use osm_mirror::{Plan, PlanRun, PlanWrite, Replies, Reply, Step, files_at, part_name, read_plan};
use std::fs;
use std::io::{IsTerminal, Write};

/// Runs a plan and returns the exit status. It prints the reply to each step, and then makes the files of the write
/// lines. If events were refused, hints say so; if the plan is strict, no file is made then. No hint follows the
/// refusal of a file that the plan names.
pub(super) fn run_plan<O: Write, E: Write + IsTerminal>(
    rt: &impl Host,
    matches: &ArgMatches<'_>,
    out: &mut O,
    err: &mut E,
) -> u8 {
    let name = matches.get_str("plan").unwrap_or(STANDARD);
    let (strict, hints) = (matches.get_flag("strict"), matches.get_flag("hints"));
    let text = match read_file(rt, name) {
        Ok((text, _)) => text,
        Err(refusal) => return hint::report(rt, &refusal, err, hints),
    };
    let text = text.as_slice();
    let plan = match read_plan(rt.alloc(), text) {
        Ok(plan) => plan,
        Err(fault) => {
            let status = Refusal::of_plan(fault, name).report(err);
            hint::advise(hint::after_plan(rt.alloc(), text, fault), err, hints);
            return status;
        }
    };
    let run = match run_lines(rt, name, &plan, strict, out) {
        Ok(run) => run,
        Err(refusal) => return refusal.report(err),
    };
    let count = run.refused();
    if count == 0 {
        return 0;
    }
    let status = if strict {
        Refusal::EventsRefused { name, count }.report(err)
    } else {
        hint::advise(hint::after_events(rt.alloc(), count), err, hints);
        0
    };
    for (index, reply) in run.replies.iter().enumerate() {
        if let Reply::Refused(fault) = reply {
            hint::advise(hint::after_event(rt, text, &plan, index, fault), err, hints);
        }
    }
    status
}

/// Runs the steps of the plan in the file `name`, prints the replies, and makes the files of the write lines. All files
/// that the plan takes are read before the first step.
fn run_lines<'p, O: Write>(
    rt: &impl Host,
    name: &'p str,
    plan: &'p Plan,
    strict: bool,
    out: &mut O,
) -> Result<PlanRun, Refusal<'p>>
    requires { NamesItsMirrors plan.now }
{
    let (alloc, steps) = (rt.alloc(), plan.steps.as_slice());
    refuse_overwriting(rt, name, plan.writes.as_slice())?;
    refuse_output(rt, name, steps)?;
    let (mut names, mut contents) = (Vec::new(alloc), Vec::new(alloc));
    let indices = read_taken(rt, steps, &mut names, &mut contents)?;
    let bytes = files_at(alloc, contents.as_slice(), indices.as_slice())?;
    let run = PlanRun::of_plan(alloc, plan, bytes.as_slice())?;
    let replies = format!(in alloc; "{}", Replies(run.replies.as_slice()))?;
    print(&mut *out, &replies)?;
    write_files(rt, &run, run.writes(plan, strict), out)?;
    Ok(run)
}

/// Refuses a write line whose OUT.part is the plan `name`, or the file of an earlier write line.
fn refuse_overwriting<'p>(
    rt: &impl Host,
    name: &'p str,
    writes: &'p [PlanWrite],
) -> Result<(), Refusal<'p>> {
    let plan = id_of_regular(rt, name);
    let mut places = vec![in rt.alloc(); place_of(rt, name)]?;
    for write in writes {
        let output = write.file.as_str();
        let (place, part) = (place_of(rt, output), part_name(rt.alloc(), output)?);
        let is_plan = plan.is_some() && id_of_regular(rt, part.as_str()) == plan;
        let is_lost = is_plan || places.iter().any(|earlier| earlier.is_part_of(&place));
        if is_lost && Target::of_name(rt, output).has_part(rt) {
            return Err(Refusal::InputIsOutput { output });
        }
        places.push(place)?;
    }
    Ok(())
}

/// Refuses standard output if it is the plan `name` or a file that a step takes. The names of these are looked up only
/// if it is a regular file.
fn refuse_output<'p>(rt: &impl Host, name: &'p str, steps: &'p [Step]) -> Result<(), Refusal<'p>> {
    let mut names = vec![in rt.alloc(); name]?;
    for step in steps {
        if let Step::Take { file, .. } = step {
            names.push(file.as_str())?;
        }
    }
    let refused = refuse_standard_output(rt, None, names.as_slice());
    if refused.is_err() {
        // A file that isn't there comes first.
        for name in names {
            fs::metadata(rt, name).map_err(|error| Refusal::unread(name, &error))?;
        }
    }
    refused
}

/// The name of a file that steps take, and the identity of a regular file.
type TakenName<'p> = (&'p str, Option<FileId>);

/// Reads the files that the steps take, each once, in the order in which they are taken first: their names are appended
/// to `names` and their bytes to `contents`. Returns for each step the index of its file; the index for a step that
/// takes no file is that of no file.
fn read_taken<'p>(
    rt: &impl Host,
    steps: &'p [Step],
    names: &mut Vec<TakenName<'p>>,
    contents: &mut Vec<Vec<u8>>,
) -> Result<Vec<usize>, Refusal<'p>>
    ensures { IfOk result (λ indices. length indices.items ≡ length steps.now) }
{
    let mut indices = Vec::new(rt.alloc());
    'steps: for step in steps {
        let index = match step {
            Step::Take { file, .. } => {
                read_once(rt, file.as_str(), &mut *names, &mut *contents)?
            }
            _ => usize::MAX,
        };
        indices.push(index)?;
    }
    Ok(indices)
}

/// Reads the file `name`, unless it is among `names`: files of one name are one file, and so are regular files of one
/// identity. Returns its index among them.
fn read_once<'p>(
    rt: &impl Host,
    name: &'p str,
    names: &mut Vec<TakenName<'p>>,
    contents: &mut Vec<Vec<u8>>,
) -> Result<usize, Refusal<'p>> {
    let (id, index) = (id_of_regular(rt, name), contents.len());
    let is_it = |known: &TakenName<'_>| known.0 == name || id.is_some() && known.1 == id;
    if let Some(known) = names.iter().position(is_it) {
        return Ok(known);
    }
    let (bytes, file) = read_file(rt, name)?;
    names.push((name, FileId::of_regular(file.metadata())))?;
    contents.push(bytes)?;
    Ok(index)
}

/// Makes the files of the write lines, in their order.
fn write_files<'p, O: Write>(
    rt: &impl Host,
    run: &PlanRun,
    writes: &'p [PlanWrite],
    out: &mut O,
) -> Result<(), Refusal<'p>>
    requires { All (λ write. write.mirror < length run.now.fleet) writes.now }
{
    'writes: for write in writes {
        let name = write.file.as_str();
        let written = run.file_of(write);
        let bytes = written.map_err(|fault| Refusal::of_fault(rt.alloc(), fault, name, None))?;
        make_file(rt, name, bytes.as_slice(), &mut *out)?;
    }
    Ok(())
}

/// Makes OUT from `bytes`. A file is written as OUT.part, which becomes OUT at the end and is removed after a refusal.
fn make_file<'p, O: Write + Drop>(
    rt: &impl Host,
    name: &'p str,
    bytes: &[u8],
    out: O,
) -> Result<(), Refusal<'p>> {
    let target = Target::of_name(rt, name);
    let mut destination = target.open(rt, &[], out)?;
    let written = write_whole(&mut destination, bytes);
    let fault = Fault::at(0, destination.taken, Reason::WriteFault);
    let written = written.map_err(|_| Refusal::of_fault(rt.alloc(), fault, target.name(), None));
    destination.finish(rt, written, false)
}
