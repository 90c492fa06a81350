//! Calls of mirrors and fleets.
use crate::given::Given;
use crate::printed::printed;
use anyhow::{Result, bail};
use osm_files::{Fault, Format};
use osm_mirror::{Event, Fleet, Keep, Mirror, Reply};
use osm_model::Memory;
use std::alloc::Global;

/// The names of the calls of this module.
pub const CALLS: &[&str] = &["Mirror::take", "Mirror::copy", "Fleet::run"];

/// The result of a call.
pub fn run_call(alloc: Global, call: &str, given: &Given) -> Result<Vec<u8>> {
    match call {
        "Mirror::take" => take(alloc, given),
        "Mirror::copy" => copy(alloc, given.file(0)?),
        _ => run(alloc, given.file(0)?, given.file(1)?),
    }
}

/// A mirror of the kind that the first word names.
fn mirror(alloc: Global, given: &Given) -> Result<Mirror> {
    match given.word(0)? {
        "full" => Ok(Mirror::new_full(alloc)),
        "latest" => Ok(Mirror::new_latest(alloc)),
        _ => bail!("there is no such mirror"),
    }
}

/// The result of the take of the second file by a mirror that took the first one, and the history of the mirror after
/// it. A take that is refused must leave the mirror unchanged.
fn take(alloc: Global, given: &Given) -> Result<Vec<u8>> {
    let mut mirror = mirror(alloc, given)?;
    mirror.take(given.file(0)?)?;
    let earlier = mirror.copy()?;
    let taken = mirror.take(given.file(1)?);
    let line = match taken {
        Ok(taken) => format!(in alloc; "took {}", taken.versions)?,
        Err(fault) if is_equal(&mirror, &earlier)? => format!(in alloc; "{fault}")?,
        Err(_) => bail!("a mirror that refused is another"),
    };
    printed(alloc, line.as_str(), &mirror.write(Format::Opl)?)
}

/// Whether two mirrors write the same bytes.
fn is_equal(left: &Mirror, right: &Mirror) -> Result<bool, Fault> {
    let left = left.write(Format::Opl)?;
    let right = right.write(Format::Opl)?;
    Ok(left.as_slice() == right.as_slice())
}

/// The history of a copy of a full mirror that took a file.
fn copy(alloc: Global, file: &[u8]) -> Result<Vec<u8>> {
    let mut mirror = Mirror::new_full(alloc);
    mirror.take(file)?;
    Ok(mirror.copy()?.write(Format::Opl)?)
}

/// Runs events over two latest mirrors: each takes a file, each passes its history to the other, and the first one
/// takes its file again. Returns the replies, the histories after the run, and the histories after a second run.
fn run(alloc: Global, first: &[u8], second: &[u8]) -> Result<Vec<u8>> {
    let mut fleet = Fleet::new(alloc, &[Keep::Latest, Keep::Latest])?;
    let events = events(first, second);
    let line = match happen(&mut fleet, &events)? {
        Ok(replies) => reply_line(alloc, &replies)?,
        Err(refused) => format!(in alloc; "{refused}")?,
    };
    let mut lines = fleet_lines(alloc, &fleet)?;
    if happen(&mut fleet, &events)?.is_err() {
        bail!("the second run was refused");
    }
    lines.extend_from_slice(b"then\n")?;
    lines.extend_from_slice(&fleet_lines(alloc, &fleet)?)?;
    printed(alloc, line.as_str(), &lines)
}

/// The events of `run`, in which the two mirrors take the files `first` and `second`.
fn events<'a>(first: &'a [u8], second: &'a [u8]) -> [Event<'a>; 5] {
    let take = Event::Take {
        mirror: 0,
        file: first,
    };
    [
        take,
        Event::Take {
            mirror: 1,
            file: second,
        },
        Event::Pass {
            from: 0,
            to: 1,
            format: Format::O5c,
        },
        Event::Pass {
            from: 1,
            to: 0,
            format: Format::Opl,
        },
        take,
    ]
}

/// Runs events, all of whose mirrors must exist.
fn happen(fleet: &mut Fleet, events: &[Event]) -> Result<Result<Vec<Reply>, Memory>> {
    if !fleet.may_run(events) {
        bail!("an event names a mirror that isn't there");
    }
    Ok(fleet.run(events))
}

/// The replies, in one line, with a blank after each.
fn reply_line(alloc: Global, replies: &[Reply]) -> Result<String> {
    let mut line = String::new(alloc);
    for reply in replies {
        line.push_str(match reply {
            Reply::Taken => "Taken",
            Reply::Refused(fault) => fault.reason.name(),
        })?;
        line.push(' ')?;
    }
    Ok(line)
}

/// The history of each mirror.
fn fleet_lines(alloc: Global, fleet: &Fleet) -> Result<Vec<u8>> {
    let mut lines = Vec::new(alloc);
    for index in 0..fleet.len() {
        lines.extend_from_slice(&fleet.mirror(index).write(Format::Opl)?)?;
    }
    Ok(lines)
}
