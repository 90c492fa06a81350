//! `osm_hist`: merges files of OpenStreetMap histories.
#![tactic(auto)]

use crate::cli::{Refusal, run_words};
use osm_mirror::EscapedBytes;
use std::alloc::AllocError;
use std::env::FillError;
use std::fs::File;
use std::io::IsTerminal;
use std::os::fd::AsRawFd;
use std::process::ExitCode;
use std::rt::Env;
use std::{env, io, str};

pub mod cli;

/// The size of the buffer for an argument that isn't UTF-8. The program doesn't show a longer one.
const ARGUMENT: usize = 4096;

/// The greatest descriptor of a standard stream.
const STANDARD_ERROR: i32 = 2;

/// Folders that may take the descriptors of closed standard streams. The first one that opens does.
const FOLDERS: [&str; 5] = ["/", ".", "/dev", "/proc", "/etc"];

fn main(rt: HostRuntime) -> ExitCode {
    let status = match occupy_standard(&rt) {
        Ok(_handles) => run_arguments(&rt),
        Err(error) => Refusal::unread(FOLDERS[0], &error).report(&mut rt.stderr()),
    };
    ExitCode::from(status)
}

/// Opens a folder until it gets a descriptor that is none of a standard stream. If a standard stream is closed, this
/// folder has its descriptor as long as the handles are kept, so that no file gets it. Each read and write of a folder
/// fails.
fn occupy_standard(rt: &HostRuntime) -> io::Result<[Option<File>; 4]> {
    let mut handles = [None, None, None, None];
    for handle in &mut handles {
        let folder = open_folder(rt)?;
        let is_above = folder.as_raw_fd() > STANDARD_ERROR;
        *handle = Some(folder);
        if is_above {
            break;
        }
    }
    Ok(handles)
}

/// Opens the first of the folders that opens. If none does, the error is that of the first.
fn open_folder(rt: &HostRuntime) -> io::Result<File> {
    let first = File::open(rt, FOLDERS[0]);
    if first.is_ok() {
        return first;
    }
    let others = FOLDERS[1..].iter();
    let opened = others.filter_map(|name| File::open(rt, *name).ok()).next();
    opened.map_or(first, Ok)
}

/// Runs the command of the arguments and returns the exit status.
fn run_arguments(rt: &HostRuntime) -> u8 {
    let arguments = match read_arguments(rt) {
        Ok(arguments) => arguments,
        Err(error) => return refuse_args(rt, &error).report(&mut rt.stderr()),
    };
    if arguments.is_empty() && rt.stdin().is_terminal() && rt.stderr().is_terminal() {
        // If standard error fails, nothing can report it.
        let _ = eprintln!(rt;
            "osm_hist: waiting for OPL on standard input; osm_hist --help shows the commands"
        );
    }
    let (stdin, out, err) = (rt.stdin(), rt.stdout(), rt.stderr());
    run_words(rt, arguments.as_slice(), stdin, out, err)
}

/// The arguments after the program's name.
fn read_arguments(rt: &HostRuntime) -> io::Result<Vec<String>> {
    Ok(env::args(rt)?.skip(1).collect(rt.alloc())?)
}

/// The refusal if the arguments aren't available: one isn't UTF-8, or the program is out of memory.
fn refuse_args(rt: &HostRuntime, error: &io::Error) -> Refusal<'static> {
    match faulty_argument(rt) {
        Ok(arg) if error.kind() != io::ErrorKind::OutOfMemory => Refusal::ArgumentsNotUtf8(arg),
        _ => Refusal::Memory(AllocError),
    }
}

/// The first argument that isn't UTF-8, with escapes for bytes that aren't printable ASCII. If it is longer than the
/// buffer, the result is a text that says so.
fn faulty_argument(rt: &HostRuntime) -> io::Result<String> {
    let mut buffer = [0u8; ARGUMENT];
    for index in 1..usize::MAX {
        match rt.arg(index, &mut buffer) {
            Ok(count) if str::from_utf8(&buffer[..count]).is_err() => {
                return Ok(format!(in rt.alloc(); "{}", EscapedBytes(&buffer[..count]))?);
            }
            Err(FillError::NotPresent) => break,
            _ => {}
        }
    }
    Ok(format!(in rt.alloc(); "an argument of more than {ARGUMENT} bytes")?)
}
