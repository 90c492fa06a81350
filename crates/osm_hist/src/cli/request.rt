//! Requests: the arguments of a command over files, parsed, and the list that may have the names of the files.
use super::command::{DEFAULT_FORMAT, FILE_OR_TIME, LIST};
use super::files::{input_name, read_file, read_input};
use super::out_part::FileId;
use super::target::{STANDARD, Target};
use super::{Host, Refusal};
use clap::ArgMatches;
use osm_files::{EndRule, Format};
use osm_mirror::{Command, FileRequest, InputsJob, Shard, read_names};
use std::alloc::Global;
use std::io::Read;

/// What the arguments of a command over files ask for.
#[derive(Drop)]
pub(super) struct Request<'a> {
    /// The file that is made from the files, or none if they are checked.
    pub(super) output: Option<OutputRequest<'a>>,
    /// The files. If a list has their names, there are none until the list is read.
    pub(super) files: InputFiles<'a>,
    pub(super) flags: Flags,
    /// The argument that names the list of files, if there is one.
    list: Option<&'a str>,
}

/// The arguments of a command that makes a file.
#[derive(Drop)]
pub(super) struct OutputRequest<'a> {
    /// OUT.
    pub(super) name: &'a str,
    /// The arguments that determine what is written.
    pub(super) asked: FileRequest<'a>,
    /// The job for which they ask.
    pub(super) job: InputsJob,
}

/// The options that have no value.
#[derive(Clone, Copy, Debug)]
pub(super) struct Flags {
    /// Whether each file has to be sorted.
    pub(super) sorted: bool,
    /// Whether a line on standard error has the tally of each file that is checked, or the work of a job.
    pub(super) summary: bool,
    /// Whether a check prints objects of JSON.
    pub(super) json: bool,
    pub(super) hints: bool,
    pub(super) progress: bool,
    /// Whether the output is synced to the disk before it is renamed.
    pub(super) fsync: bool,
    /// Whether OUT isn't replaced if keys have a visible and a deleted version.
    pub(super) rejects_clashes: bool,
}

impl Flags {
    /// The options among the arguments.
    fn of_matches(matches: &ArgMatches<'_>) -> Flags {
        Flags {
            sorted: matches.get_flag("sorted"),
            summary: matches.get_flag("summary"),
            json: matches.get_flag("json"),
            hints: matches.get_flag("hints"),
            progress: matches.get_flag("progress"),
            fsync: matches.get_flag("fsync"),
            rejects_clashes: matches.get_flag("reject-clashes"),
        }
    }
}

impl<'a> Request<'a> {
    /// The request that the arguments of the command `name` make. `clap` has checked that all required arguments are
    /// given.
    ///
    /// # Errors
    ///
    /// A mistake in the times, in the shard or in the names of the files, or out of memory.
    pub(super) fn of_matches(
        alloc: Global,
        name: &str,
        matches: &ArgMatches<'a>,
    ) -> Result<Request<'a>, Refusal<'a>> {
        let list = matches.get_str(LIST);
        let end = EndRule::required(matches.get_flag("whole"), matches.get_flag("ended"));
        let command = Command::named(name);
        let output = command.map(|command| OutputRequest::of_matches(command, matches, end));
        let output = output.transpose()?;
        let names = matches.get_strs("files").or(matches.get_strs(FILE_OR_TIME));
        let names = names.filter(|_| list.is_none()).unwrap_or(&[]);
        let names = Vec::from_slice(alloc, names)?;
        refuse_twice(names.as_slice(), false)?;
        let files = InputFiles {
            names,
            list: None,
            end,
            keeps_empty: matches.get_str("shard").is_some(),
        };
        Ok(Request {
            output,
            files,
            flags: Flags::of_matches(matches),
            list,
        })
    }

    /// The request with the names in its list of files. `text` is the text of the list, and `id` its identity.
    ///
    /// # Errors
    ///
    /// A mistake in the list, or out of memory.
    pub(super) fn with_list(
        self,
        alloc: Global,
        text: &'a str,
        id: Option<FileId>,
    ) -> Result<Request<'a>, Refusal<'a>> {
        let Some(list) = self.list else {
            return Ok(self);
        };
        // A list of lines, which has no NUL, would be read as one long name.
        let is_lines = text.contains('\n') && !text.contains('\0');
        let must_end = is_lines || self.files.end != EndRule::Any;
        let (name, read) = (input_name(list), read_names(alloc, text, must_end));
        let names = read.map_err(|fault| Refusal::of_list(fault, name))?;
        refuse_twice(names.as_slice(), list == STANDARD)?;
        let files = InputFiles {
            names,
            list: id,
            end: self.files.end,
            keeps_empty: self.files.keeps_empty,
        };
        Ok(Request { files, ..self })
    }
}

/// Refuses standard input in `names` more than once, and at all if it is used up.
fn refuse_twice<'a>(names: &[&str], is_used: bool) -> Result<(), Refusal<'a>> {
    let most = usize::from(!is_used);
    if names.iter().filter(|name| **name == STANDARD).count() > most {
        return Err(Refusal::StandardInputTwice);
    }
    Ok(())
}

impl<'a> OutputRequest<'a> {
    /// What the arguments of `command` ask for. A list of files replaces FILE, so the times of `time-filter` begin one
    /// argument earlier.
    fn of_matches(
        command: Command,
        matches: &ArgMatches<'a>,
        end_rule: EndRule,
    ) -> Result<OutputRequest<'a>, Refusal<'a>> {
        let shard = matches.get_str("shard");
        let (time, end) = match matches.get_str(LIST) {
            Some(_) => (FILE_OR_TIME, "time"),
            None => ("time", "end"),
        };
        let format = matches
            .get_str("format")
            .and_then(|name| Format::named(name));
        let asked = FileRequest {
            command,
            with_history: matches.get_flag("with-history"),
            with_deletions: matches.get_flag("with-deletions"),
            sorted: matches.get_flag("sorted"),
            time: matches.get_str(time),
            end: matches.get_str(end),
            format: format.unwrap_or(DEFAULT_FORMAT),
            shard: shard.and_then(|shard| Shard::read(shard)),
            end_rule,
        };
        let job = asked.run()?;
        if let (Some(shard), None) = (shard, asked.shard) {
            return Err(Refusal::NotShard { shard });
        }
        Ok(OutputRequest {
            name: matches.get_str("output").unwrap_or(STANDARD),
            asked,
            job,
        })
    }
}

/// The input files of a command.
#[derive(Drop)]
pub(super) struct InputFiles<'a> {
    pub(super) names: Vec<&'a str>,
    /// The identity of the list that has their names, if it is known.
    pub(super) list: Option<FileId>,
    /// How OPL files must end.
    pub(super) end: EndRule,
    /// Whether an empty file is read as a regular file, and not as a stream. A file of `/proc` has bytes, though its
    /// size is 0.
    pub(super) keeps_empty: bool,
}

/// Reads the list of files that the request names, where `-` is standard input. The list has the names, each ended by
/// NUL. Returns its text, and the identity of its file if that is known. Without a list the text is empty. A list that
/// is OUT, or has the name of OUT.part, is refused.
pub(super) fn read_list<'a, I: Read + Drop>(
    rt: &impl Host,
    request: &Request<'a>,
    stdin: &mut Option<I>,
) -> Result<(String, Option<FileId>), Refusal<'a>> {
    let Some(arg) = request.list else {
        return Ok((String::new(rt.alloc()), None));
    };
    if let Some(output) = &request.output {
        Target::of_arg(rt, output.name).refuse_part(&[arg])?;
    }
    let name = input_name(arg);
    let (bytes, id) = if arg != STANDARD {
        let (bytes, file) = read_file(rt, arg)?;
        (bytes, FileId::of_known(file.metadata()))
    } else if let Some(mut stream) = stdin.take() {
        (read_input(rt, &mut stream)?, FileId::of_input(rt))
    } else {
        return Err(Refusal::CannotRead { name, code: None });
    };
    if let Some(output) = &request.output {
        Target::of_arg(rt, output.name).refuse_list(rt, id)?;
    }
    let text = String::from_utf8(bytes).map_err(|_| Refusal::ListNotUtf8 { name })?;
    Ok((text, id))
}
