//! Commands: their arguments are parsed, the command is run, and its result is reported.
ghost use Rattle.std.specs.Prelude.{OnOk, string_bytes};
ghost use Rattle.std.specs.Io.KnownBytes.{Appends};

mod command;
mod file_check;
mod file_run;
mod files;
mod hint;
mod input;
mod out_part;
mod plan_run;
mod refusal;
mod request;
mod shard;
mod target;

use clap::{ArgMatches, Error};
use command::{ALL_REASONS, command};
use file_check::check_files;
use file_run::make_output;
use osm_mirror::{Escaped, Explanation, ReasonList};
use plan_run::run_plan;
pub(crate) use refusal::Refusal;
use request::{OutputRequest, Request, read_list};
use std::alloc::{AllocGlobal, Global};
use std::convert::AsStr;
use std::fs::File;
use std::io;
use std::io::{IsTerminal, Read, Write};
use std::rt::Files;
use std::time::Clock;
use target::STANDARD;

/// The system that runs the program: its files, its clock and its memory.
pub trait Host: Files<File = File> + Clock + AllocGlobal {}

impl<R: Files<File = File> + Clock + AllocGlobal> Host for R {}

/// The arguments of a job without arguments: standard input is merged to standard output.
const NO_ARGS: [&str; 4] = ["merge", "--output", STANDARD, STANDARD];

/// Runs one command and returns the exit status.
///
/// `rt` is the runtime; the files are in its folder. `arguments` are the arguments after the program's name. `stdin` is
/// standard input, `out` is standard output, and `err` is standard error. With no arguments, `stdin` is merged to
/// `out`. Help, the version, the lines of a check and the replies to a plan's events go to `out`, too. The reports
/// during a job and the line of a refusal go to `err`.
///
/// The status is 0 for success and help. It is 1 if a file, memory or `out` fails. It is 2 for a usage error: a mistake
/// in the arguments, in a list of files or in a plan.
pub fn run_words<S, I, O, E>(
    rt: &impl Host,
    arguments: &[S],
    stdin: I,
    mut out: O,
    mut err: E,
) -> u8
where
    S: AsStr,
    I: Read + Drop,
    O: Write + IsTerminal + Drop,
    E: Write + IsTerminal + Drop,
{
    let parsed = if arguments.is_empty() {
        parse(rt.alloc(), NO_ARGS.as_slice())
    } else {
        parse(rt.alloc(), arguments)
    };
    match parsed {
        Ok(matches) => match matches.subcommand() {
            Some((name, matches)) => run_command(rt, name, matches, stdin, &mut out, &mut err),
            None => {
                let printed = print_explanation(rt.alloc(), matches.get_str("explain"), &mut out);
                status_of(rt, printed, &mut err, false)
            }
        },
        Err(help) if !help.use_stderr() => {
            status_of(rt, print_help(rt.alloc(), &help, &mut out), &mut err, false)
        }
        Err(mistake) => {
            let shown = escaped_mistake(rt.alloc(), arguments).filter(|_| err.is_terminal());
            let mistake = Refusal::of_arguments(shown.unwrap_or(mistake));
            hint::report(rt, &mistake, &mut err, false)
        }
    }
}

/// Parses arguments. The request for help or for the version is an error, too.
fn parse<'a, S: AsStr>(alloc: Global, arguments: &'a [S]) -> Result<ArgMatches<'a>, Error> {
    command(alloc)?.try_get_matches_from(arguments)
}

/// The mistake in `arguments`, in which control characters are escaped.
fn escaped_mistake<S: AsStr>(alloc: Global, arguments: &[S]) -> Option<Error> {
    let mut shown = Vec::new(alloc);
    for arg in arguments {
        let text = format!(in alloc; "{}", Escaped(arg.as_str())).ok()?;
        shown.push(text).ok()?;
    }
    parse(alloc, shown.as_slice()).err()
}

/// Runs the command `name` with the arguments in `matches`, reports its outcome and returns the exit status.
fn run_command<I: Read + Drop, O: Write + IsTerminal, E: Write + IsTerminal>(
    rt: &impl Host,
    name: &str,
    matches: &ArgMatches<'_>,
    stdin: I,
    out: &mut O,
    err: &mut E,
) -> u8 {
    if name == "plan" {
        return run_plan(rt, matches, out, err);
    }
    match Request::of_matches(rt.alloc(), name, matches) {
        Ok(request) => run_request(rt, request, stdin, out, err),
        Err(refusal) => hint::report(rt, &refusal, err, matches.get_flag("hints")),
    }
}

/// Reads the list of files that the request names, if it names one, runs the request, and reports its outcome.
fn run_request<I: Read + Drop, O: Write + IsTerminal, E: Write + IsTerminal>(
    rt: &impl Host,
    request: Request<'_>,
    stdin: I,
    out: &mut O,
    err: &mut E,
) -> u8 {
    let (mut stdin, hints) = (Some(stdin), request.flags.hints);
    let (text, list) = match read_list(rt, &request, &mut stdin) {
        Ok(list) => list,
        Err(refusal) => return hint::report(rt, &refusal, err, hints),
    };
    let request = match request.with_list(rt.alloc(), text.as_str(), list) {
        Ok(request) => request,
        Err(refusal) => return hint::report(rt, &refusal, err, hints),
    };
    let outcome = match &request.output {
        Some(output) => write_output(rt, &request, output, stdin, out, err),
        None => check_files(rt, request.flags, &request.files, stdin, out, err),
    };
    status_of(rt, outcome, err, hints)
}

/// Makes OUT from the files, and advises of what may surprise. Returns the exit status.
fn write_output<'a, I: Read + Drop, O: Write + IsTerminal, E: Write + IsTerminal>(
    rt: &impl Host,
    request: &Request<'a>,
    output: &OutputRequest<'a>,
    stdin: Option<I>,
    out: &mut O,
    err: &mut E,
) -> Result<u8, Refusal<'a>> {
    let has_more_o5 = make_output(rt, request, output, stdin, out, err)?;
    let more = format!(in rt.alloc(); "{}", hint::MORE_O5).ok();
    hint::advise(more.filter(|_| has_more_o5), err, request.flags.hints);
    let other = hint::after_output(rt.alloc(), output.name, output.asked.format);
    hint::advise(other, err, request.flags.hints);
    Ok(0)
}

/// Prints what `reason` means, and what to do; or all reasons.
fn print_explanation<'a, O: Write>(
    alloc: Global,
    reason: Option<&'a str>,
    out: &mut O,
) -> Result<u8, Refusal<'a>> {
    let reason = reason.ok_or(Refusal::NoCommand)?;
    let text = if reason == ALL_REASONS {
        format!(in alloc; "{ReasonList}")?
    } else {
        let row = Explanation::named(reason).ok_or(Refusal::NotReason { reason })?;
        format!(in alloc; "{row}.\n{}\n", row.remedy)?
    };
    print(out, &text)?;
    Ok(0)
}

/// Reports a refusal, if there is one, and returns the exit status.
fn status_of<E: Write + IsTerminal>(
    rt: &impl Host,
    outcome: Result<u8, Refusal<'_>>,
    err: &mut E,
    hints: bool,
) -> u8 {
    match outcome {
        Ok(status) => status,
        Err(refusal) => hint::report(rt, &refusal, err, hints),
    }
}

/// Prints help or the version.
fn print_help<O: Write>(alloc: Global, help: &Error, out: &mut O) -> Result<u8, Refusal<'static>> {
    print(out, &format!(in alloc; "{help}")?)?;
    Ok(0)
}

/// Prints a text, which has its own line feeds.
fn print<'a, O: Write>(out: &mut O, text: &String) -> Result<(), Refusal<'a>>
    ensures { OnOk result (Appends (O.contents out.old) (O.contents out.new) (string_bytes text.now)) }
{
    match write_whole(out, text.as_bytes()) {
        Ok(()) => Ok(()),
        Err(_) => Err(Refusal::StandardOutput),
    }
}

/// Writes all of `bytes`, and flushes the writer.
fn write_whole<W: Write>(writer: &mut W, bytes: &[u8]) -> io::Result<()>
    ensures { OnOk result (Appends (W.contents writer.old) (W.contents writer.new) bytes.now) }
{
    writer.write_all(bytes)?;
    writer.flush()
}
