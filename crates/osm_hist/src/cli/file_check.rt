//! Checks of files.
use super::files::input_name;
use super::input::{open_input, refuse_changed, size_of};
use super::refusal::Refusal;
use super::request::{Flags, InputFiles};
use super::target::refuse_standard_output;
use super::{Host, hint, print};
use osm_files::Fault;
use osm_mirror::{
    CheckedFile, CheckedJson, EscapedOut, Order, RefusedJson, run_tally, run_tally_file,
    run_tally_sorted,
};
use std::alloc::{AllocError, Global};
use std::cell::Cell;
use std::io::{IsTerminal, Read, Write};

/// Checks each file, and prints a line about it: its report, or an object of JSON. With `--summary` standard error has
/// a line, too. After a refusal the check continues with the next file, unless its line can't be printed. Returns the
/// status of the last refusal, or 0.
pub(super) fn check_files<'a, I: Read + Drop, O: Write + IsTerminal, E: Write + IsTerminal>(
    rt: &impl Host,
    flags: Flags,
    files: &InputFiles<'a>,
    mut stdin: Option<I>,
    out: &mut O,
    err: &mut E,
) -> Result<u8, Refusal<'a>> {
    let mut status = 0;
    refuse_standard_output(rt, files.list, files.names.as_slice())?;
    for arg in &files.names {
        let reads = Cell::new(0);
        let outcome = check_file(rt, flags.sorted, files, *arg, &mut stdin, &reads);
        if let Err(refusal) = &outcome {
            status = hint::report(rt, refusal, err, flags.hints);
        }
        if let Some(line) = line_of(rt.alloc(), flags, files, *arg, &outcome)? {
            if out.is_terminal() {
                print(&mut EscapedOut(out), &line)?;
            } else {
                print(out, &line)?;
            }
        }
        if let Ok(file) = &outcome
            && flags.summary
        {
            let _ = writeln!(err, "{file}").and_then(|()| err.flush());
        }
    }
    Ok(status)
}

/// The line about a file. With `--json` it is an object. Otherwise a refused file has none, and the line begins with
/// the file's name if there are several.
fn line_of(
    alloc: Global,
    flags: Flags,
    files: &InputFiles<'_>,
    arg: &str,
    outcome: &Result<CheckedFile<'_>, Refusal<'_>>,
) -> Result<Option<String>, AllocError> {
    let name = input_name(arg);
    let line = match outcome {
        Ok(file) if flags.json => format!(in alloc; "{}\n", CheckedJson(*file)),
        Ok(file) if files.names.len() > 1 => {
            format!(in alloc; "{name}: {}\n", file.checked.report)
        }
        Ok(file) => format!(in alloc; "{}\n", file.checked.report),
        Err(refusal) if flags.json => {
            let (place, reason) = refusal.cause();
            let json = RefusedJson {
                name,
                place,
                reason,
            };
            format!(in alloc; "{json}\n")
        }
        Err(_) => return Ok(None),
    };
    Ok(Some(line?))
}

/// Checks the file that `arg` names. Its reads are counted in `reads`. A stream is held in memory, unless it has to be
/// `sorted`.
fn check_file<'a, I: Read + Drop>(
    rt: &impl Host,
    sorted: bool,
    files: &InputFiles<'a>,
    arg: &'a str,
    stdin: &mut Option<I>,
    reads: &Cell<u64>,
) -> Result<CheckedFile<'a>, Refusal<'a>> {
    let alloc = rt.alloc();
    let order = if sorted { Order::Sorted } else { Order::Any };
    let mut streams = Vec::new(alloc);
    let input = open_input(rt, files, arg, stdin, &mut streams, reads)?;
    let checked = match (&input.regular, streams.pop()) {
        (Some(file), _) => run_tally_file(alloc, order, input.end, file),
        (None, Some(stream)) if sorted => run_tally_sorted(alloc, input.end, stream),
        (None, Some(stream)) => run_tally(alloc, input.end, stream),
        (None, None) => Err(Fault::failed(0)),
    };
    refuse_changed(rt, &input)?;
    let (name, bytes) = (input.note.name, size_of(&input).unwrap_or(reads.get()));
    let checked = checked.map_err(|fault| Refusal::of_fault(alloc, fault, name, None))?;
    Ok(CheckedFile {
        name,
        bytes,
        checked,
    })
}
