//! Hints: one line after a refusal or a success, which says what to do.
use super::files::STANDARD_INPUT;
use super::out_part::{id_of_regular, is_of_job};
use super::{Host, Refusal};
use osm_files::{Fault, Format, Reason};
use osm_mirror::{
    CUT, Content, Escaped, Explanation, FaultyLine, NamesFault, OtherOutput, Plan, PlanFault,
    Quoted, RequestFault, Step, content_of, folder_of, line_of_number, line_of_part, part_name,
};
use std::alloc::Global;
use std::fs::File;
use std::io::{IsTerminal, Read, Write};
use std::{fs, io};

/// The system's numbers of the errors that too many files are open, in the whole system and in this process.
const TOO_MANY_OPEN: [i32; 2] = [23, 24];

/// How to need less memory.
const LESS_MEMORY: &str =
    "--sorted holds no file in memory; osm_hist sort --output SORTED FILE sorts a regular file first";

/// What to do if a stream isn't sorted, which can't be read again.
const UNSORTED_STREAM: &str =
    "a stream is read once: make it again, through a pipe into osm_hist sort --output SORTED -";

/// What a derived change file does.
const DERIVED: &str =
    "a change file that was derived from two extracts deletes what left the region, at the version \
    number that it has; --with-deletions takes changes of one history only";

/// The hint if o5 files are the larger part of what was sharded.
pub(super) const MORE_O5: &str =
    "each process reads o5m and o5c files whole, and they are the larger part: write them as OPL before";

/// Reports a refusal and returns the exit status. A hint follows if `is_asked`, or if standard error is a terminal.
pub(super) fn report<E: Write + IsTerminal>(
    rt: &impl Host,
    refusal: &Refusal<'_>,
    err: &mut E,
    is_asked: bool,
) -> u8 {
    let status = refusal.report(err);
    if is_asked || err.is_terminal() {
        advise(after_refusal(rt, refusal), err, true);
    }
    status
}

/// Writes a hint if `is_asked`, or if standard error is a terminal.
pub(super) fn advise<E: Write + IsTerminal>(hint: Option<String>, err: &mut E, is_asked: bool) {
    if let Some(hint) = hint
        && (is_asked || err.is_terminal())
    {
        let _ = writeln!(err, "hint: {hint}").and_then(|()| err.flush());
    }
}

/// The hint after `count` events of a plan were refused.
pub(super) fn after_events(alloc: Global, count: usize) -> Option<String> {
    format!(in alloc;
        "{count} events were refused, so what was written lacks their files; osm_hist plan --strict writes nothing then"
    ).ok()
}

/// The hint after the event with this index of a plan, whose text is `text`, was refused for `fault`.
pub(super) fn after_event(
    rt: &impl Host,
    text: &[u8],
    plan: &Plan,
    index: usize,
    fault: &Fault,
) -> Option<String> {
    let (number, line) = line_of_part(text, plan.mirrors.len().saturating_add(index))?;
    let hint = match plan.steps.get(index) {
        Some(Step::Take { file, .. }) => of_fault(rt, file.as_str(), fault, None),
        _ => explained(rt.alloc(), None, fault.reason.name()),
    };
    let (line, hint) = (Escaped(line), hint?);
    format!(in rt.alloc(); "line {number}, {line}: {hint}").ok()
}

/// The hint after the plan with the text `text` was refused for `fault`: the faulty line, and what the reason means.
pub(super) fn after_plan(alloc: Global, text: &[u8], fault: PlanFault) -> Option<String> {
    let line = line_of_number(text, fault.line).map(|line| Escaped(line));
    let hint = line.and_then(|line| format!(in alloc; "line {} is: {line}", fault.line).ok());
    explained(alloc, hint, fault.reason.name())
}

/// The hint after OUT was written in the format `format`, if its name ends in the name of another one.
pub(super) fn after_output(alloc: Global, output: &str, format: Format) -> Option<String> {
    format!(in alloc; "{}", OtherOutput::of_name(output, format)?).ok()
}

/// The hint after the refusal `refusal`.
fn after_refusal(rt: &impl Host, refusal: &Refusal<'_>) -> Option<String> {
    let hint = match refusal {
        Refusal::Request(RequestFault::NotMoment { time }) if fs::metadata(rt, *time).is_ok() =>
            "time-filter takes one FILE; merge several first, or name them by --files0-from",
        Refusal::Request(RequestFault::NotMoment { .. }) =>
            "a TIME is as 2015-06-01T00:00:00Z, from 1970-01-01T00:00:01Z to 2106-02-07T06:28:15Z",
        Refusal::Request(RequestFault::NotAfterFirst { .. }) =>
            "the second TIME has to be later than the first",
        Refusal::NotReason { .. } => "osm_hist --explain prints the reasons; NoEnd is one of them",
        Refusal::List {
            fault: NamesFault::NotEnded,
            ..
        } => "each name in LIST is ended by NUL, as find -print0 writes it, and not by a line feed",
        Refusal::NotSynced { .. } => "OUT is the new file; it may be lost if the power fails",
        Refusal::Clashes { .. } => DERIVED,
        Refusal::NotShard { .. } => "a shard is as 3/8, the third of eight; there are up to 9999",
        Refusal::Memory(_) => LESS_MEMORY,
        Refusal::CannotRead { name, code } => return of_system(rt, *name, (*code)?),
        Refusal::CannotCreate { output, code } => return of_uncreated(rt, *output, *code),
        Refusal::CannotRename { output }
            if fs::metadata(rt, *output).is_ok_and(|found| found.is_dir()) => {
            return about(rt.alloc(), *output, "is a directory");
        }
        Refusal::File(file) => return of_fault(rt, file.name, &file.fault, file.code),
        _ => return None,
    };
    text(rt.alloc(), hint)
}

/// A hint that is the same for all files.
fn text(alloc: Global, hint: &str) -> Option<String> {
    String::from_str(alloc, hint).ok()
}

/// What is the matter with the file `name`.
fn about(alloc: Global, name: &str, what: &str) -> Option<String> {
    format!(in alloc; "{} {what}", Escaped(name)).ok()
}

/// A hint that ends with what the reason `reason` means.
fn explained(alloc: Global, hint: Option<String>, reason: &str) -> Option<String> {
    match (hint, Explanation::named(reason)) {
        (Some(hint), Some(row)) => format!(in alloc; "{hint}; {row}").ok(),
        (None, Some(row)) => format!(in alloc; "{row}").ok(),
        (hint, None) => hint,
    }
}

/// The system's reason for the refusal of the file `name`. `code` is its number. If too many files are open, the hint
/// names the limit.
fn of_system(rt: &impl Host, name: &str, code: i32) -> Option<String> {
    if TOO_MANY_OPEN.contains(&code)
        && let Some(limit) = open_limit(rt)
    {
        return format!(in rt.alloc();
            "{limit} files may be open at a time, which ulimit -n shows; ulimit -n NUMBER raises the limit"
        ).ok();
    }
    format!(in rt.alloc(); "{}: {}", Escaped(name), io::Error::from_raw_os_error(code)).ok()
}

/// The number of files that this process may have open at a time.
fn open_limit(rt: &impl Host) -> Option<u64> {
    let limits = fs::read_to_string(rt, "/proc/self/limits").ok()?;
    let line = limits
        .lines()
        .find(|line| line.starts_with("Max open files"))?;
    line.split_whitespace().nth(3)?.parse().ok()
}

/// Why OUT.part can't be made: another file has its name, the system refused it with the error `code`, or another job
/// has it.
fn of_uncreated(rt: &impl Host, output: &str, code: Option<i32>) -> Option<String> {
    let alloc = rt.alloc();
    let part = part_name(alloc, output).ok()?;
    let what = match (fs::symlink_metadata(rt, part.as_str()), code) {
        (Ok(found), _) if found.is_dir() => "is a directory",
        (Ok(found), _) if found.is_symlink() => "is a link",
        (Ok(found), _) if !found.is_file() => "is not a regular file",
        (Ok(found), None) if !is_of_job(rt, &found, output) => "is a file of another user",
        (_, Some(code)) => return of_system(rt, folder_of(output), code),
        (_, None) => return format!(in alloc; "another run writes {}", Escaped(output)).ok(),
    };
    about(alloc, part.as_str(), what)
}

/// The hint for a fault of the file `name`. Standard input can't be read once more. `code` is the number of a write
/// error.
fn of_fault(rt: &impl Host, name: &str, fault: &Fault, code: Option<i32>) -> Option<String> {
    let alloc = rt.alloc();
    let is_input = name == STANDARD_INPUT;
    let is_regular = !is_input && id_of_regular(rt, name).is_some();
    let hint = match fault.reason {
        Reason::Memory => return text(alloc, LESS_MEMORY),
        Reason::Unsorted if is_regular => {
            format!(in alloc; "osm_hist sort --output SORTED {} sorts it", Quoted(name)).ok()
        }
        Reason::Unsorted => text(alloc, UNSORTED_STREAM),
        Reason::WriteFault => code.and_then(|code| of_system(rt, name, code)),
        Reason::ReadFault if !is_input => of_unread(rt, name),
        Reason::ReadFault | Reason::Failed | Reason::TooLong => None,
        _ if is_regular => return of_content(rt, name, fault),
        Reason::NoEnd => about(alloc, name, CUT),
        _ => None,
    };
    explained(alloc, hint, fault.reason.name())
}

/// Why the file `name` couldn't be read. Reading it once more shows the reason.
fn of_unread(rt: &impl Host, name: &str) -> Option<String> {
    let outcome = match File::open(rt, name) {
        Ok(mut file) => file.read(&mut [0u8; 1]),
        Err(error) => Err(error),
    };
    of_system(rt, name, outcome.err()?.raw_os_error()?)
}

/// What a refused file is, by its first bytes: a file of another format, a cut file, or OPL with a faulty line. A hint
/// that names a command ends with it.
fn of_content(rt: &impl Host, name: &str, fault: &Fault) -> Option<String> {
    let (alloc, reason) = (rt.alloc(), fault.reason.name());
    let mut head = [0u8; 16];
    let count = File::open(rt, name).ok()?.read(&mut head).ok()?;
    let is_cut = fault.reason == Reason::NoEnd || reason == "Truncated";
    let hint = match content_of(name, &head[..count], is_cut) {
        Content::Foreign(conversion) => return format!(in alloc; "{conversion}").ok(),
        Content::Other(what) => about(alloc, name, what),
        Content::Line => of_line(rt, name, fault.place),
        Content::DataSet => None,
    };
    explained(alloc, hint, reason)
}

/// The number of the faulty line of a file, which is read once more, and the object that the line begins with.
fn of_line(rt: &impl Host, name: &str, offset: u64) -> Option<String> {
    let line = FaultyLine::read(&mut File::open(rt, name).ok()?, offset)?;
    format!(in rt.alloc();
        "line {} of {}, which begins with {}",
        line.number,
        Escaped(name),
        line.object()
    )
    .ok()
}
