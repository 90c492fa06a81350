//! The arguments that the program takes, with their help.
use clap::{Arg, Command, arg};
use osm_files::{FORMAT_NAMES, Format};
use std::alloc::{AllocError, Global};

/// The program's version.
const VERSION: &str = "0.1.0";

/// The option for a list of files.
pub(super) const LIST: &str = "files0-from";

/// The first argument of `time-filter`: FILE, or with a list of files the first TIME.
pub(super) const FILE_OR_TIME: &str = "file-or-time";

/// The format of an output whose format isn't given.
pub(super) const DEFAULT_FORMAT: Format = Format::Opl;

/// The value of `--explain` if it has none: all reasons are listed.
pub(super) const ALL_REASONS: &str = "reasons";

/// The usage of `time-filter`.
const TIME_FILTER_USAGE: &str =
    "osm_hist time-filter [OPTIONS] --output <OUT> <FILE> <TIME> [TIME]\n       \
    osm_hist time-filter [OPTIONS] --output <OUT> --files0-from <LIST> <TIME> [TIME]";

/// The end of the help of a command that takes files in any order: memory and an example.
macro_rules! any_order_help {
    ($example:literal) => {
        concat!(
            "Memory: a file that is sorted, or a few sorted ones after each other, is read one version at a time. Any ",
            "other file is held in memory, and so is a pipe, which can't be read twice.\n\nExample: osm_hist ",
            $example
        )
    };
}

/// A command, or out of memory.
type Made<'a> = Result<Command<'a>, AllocError>;

/// The command that parses the arguments.
pub(super) fn command<'a>(alloc: Global) -> Made<'a> {
    let explain = "Explains why a file is rejected, by its reason; without one, lists the reasons";
    let explain = arg!(in alloc; --explain [REASON]).help(explain);
    Command::new(alloc, "osm_hist")
        .about("Merges, cuts and checks files of OpenStreetMap histories")
        .version(VERSION)
        .override_usage("osm_hist [COMMAND]\n       osm_hist --explain [REASON]")
        .after_help(
            "Without a command, standard input is merged to standard output, as OPL.\n\n\
            Memory: files that are sorted are read one version at a time, however large they are.",
        )
        .no_binary_name(true)
        .args_conflicts_with_subcommands(true)
        .bin_name("osm_hist")?
        .arg(explain.default_missing_value(ALL_REASONS))?
        .subcommand(merge_command(alloc)?)?
        .subcommand(apply_command(alloc)?)?
        .subcommand(time_filter_command(alloc)?)?
        .subcommand(sort_command(alloc)?)?
        .subcommand(check_command(alloc)?)?
        .subcommand(plan_command(alloc)?)
}

fn merge_command<'a>(alloc: Global) -> Made<'a> {
    let command = Command::new(alloc, "merge")
        .about("Merges sorted files into one")
        .after_help(
            "Memory: each file is read one version at a time.\n\n\
        Example: osm_hist merge --output all.opl monday.opl tuesday.o5m",
        );
    let files = "The files to be merged, each sorted, in OPL, o5m or o5c; - is standard input";
    with_input(alloc, with_output(alloc, command)?)?.arg(files_arg(alloc, files)?)
}

fn apply_command<'a>(alloc: Global) -> Made<'a> {
    let command = Command::new(alloc, "apply")
        .about("Applies changes: writes the newest version of each object that isn't deleted")
        .after_help(any_order_help!(
            "apply --output today.o5m --format o5m yesterday.o5m changes.o5c"
        ));
    let command = command.alias("apply-changes")?;
    let deletions = "Writes the newest version of each object, deletions included";
    let deletions = arg!(in alloc; --"with-deletions").help(deletions);
    let files = "The files and changes, in OPL, o5m or o5c; - is standard input";
    with_input(alloc, with_output(alloc, command)?)?
        .arg(deletions.conflicts_with("with-history")?)?
        .arg(arg!(in alloc; --"with-history" "Writes all versions, deletions included"))?
        .arg(sorted_arg(alloc))?
        .arg(files_arg(alloc, files)?)
}

fn time_filter_command<'a>(alloc: Global) -> Made<'a> {
    let command = Command::new(alloc, "time-filter")
        .about("Writes the objects as they stood at a moment, or their versions of a period")
        .override_usage(TIME_FILTER_USAGE)
        .after_help(any_order_help!(
            "time-filter --output new-year.opl history.opl 2020-01-01T00:00:00Z"
        ));
    let file = "The file of a history, in OPL, o5m or o5c; - is standard input";
    let time = arg!(in alloc; time: [TIME] "The moment, as 2014-05-06T07:08:09Z");
    let end = "The end of the period that begins then: all versions of that period are written";
    with_input(alloc, with_output(alloc, command)?)?
        .arg(sorted_arg(alloc))?
        .arg(arg!(in alloc; "file-or-time": <FILE>).help(file))?
        .arg(time.required_unless_present(LIST)?)?
        .arg(arg!(in alloc; end: [TIME]).help(end).conflicts_with(LIST)?)
}

fn sort_command<'a>(alloc: Global) -> Made<'a> {
    let command = Command::new(alloc, "sort")
        .about("Sorts files in any order into one")
        .after_help(any_order_help!("sort --output sorted.opl unsorted.opl"));
    let files = "The files to be sorted, in OPL, o5m or o5c; - is standard input";
    with_input(alloc, with_output(alloc, command)?)?
        .arg(sorted_arg(alloc))?
        .arg(files_arg(alloc, files)?)
}

fn check_command<'a>(alloc: Global) -> Made<'a> {
    let command = Command::new(alloc, "check")
        .about("Prints a file's format, its versions and objects, and whether it is sorted")
        .after_help(
            "Of several files each gets a line that begins with its name; where one is rejected, the others are \
            still checked.\n\n\
            Memory: a sorted file is read one version at a time. A file that isn't sorted is held in memory, and so \
            is a pipe, which can't be read twice. With --sorted none is held.\n\n\
            Example: osm_hist check download.o5m",
        );
    let files = "The files to be checked, in OPL, o5m or o5c; - is standard input";
    let json = "Prints an object of JSON for each file, also for a rejected one";
    let summary =
        "Reports on standard error, in a line for each file, its versions by kind and its times";
    with_input(alloc, command.arg(sorted_arg(alloc))?)?
        .arg(arg!(in alloc; --summary).help(summary))?
        .arg(arg!(in alloc; --json).help(json))?
        .arg(files_arg(alloc, files)?)
}

fn plan_command<'a>(alloc: Global) -> Made<'a> {
    Command::new(alloc, "plan")
        .about(
            "Runs a plan: mirrors take files and pass them on, and what they hold in the end is written",
        )
        .after_help(
            "PLAN is a text of lines. The lines `full` and `latest` come first, one for each mirror, numbered from 0; \
            then `take M FILE`, `pass M N FORMAT` and `restart M FORMAT`; then `write M FORMAT FILE`. For example, two \
            mirrors of which one takes a file and passes it on:\n\nlatest\nfull\ntake 0 a.opl\npass 0 1 o5c\n\
            write 1 opl x.opl\n\n\
            Memory: all files that are taken and all that the mirrors hold are in memory.\n\n\
            Example: osm_hist plan mirrors.plan",
        )
        .arg(arg!(in alloc; plan: <PLAN> "The file of the plan"))?
        .arg(arg!(in alloc; --strict "Writes nothing if an event fails"))?
        .arg(hints_arg(alloc))
}

/// Adds the options of a command that writes a file.
fn with_output<'a>(alloc: Global, command: Command<'a>) -> Made<'a> {
    let out =
        "The file to be written; - is standard output, and a pipe or a device is written as it is";
    let output = arg!(in alloc; -o --output <OUT>).required(true).help(out);
    let shard =
        "Writes part K of N; all parts as OPL, in sequence, are the output; the files are sorted";
    let progress = "Reports on standard error, while it runs, how many megabytes were read";
    let summary = "Reports on standard error, in one line after success, what was read and written";
    let clashes =
        "Replaces no file if a version is visible in one file and deleted in another, or in itself";
    let format = arg!(in alloc; -f --format <FORMAT> "Its format, whatever its name ends in");
    let format = format.value_parser(FORMAT_NAMES.as_slice());
    command
        .arg(output)?
        .arg(format.default_value(DEFAULT_FORMAT.name()))?
        .arg(arg!(in alloc; --shard <"K/N">).help(shard))?
        .arg(arg!(in alloc; --fsync "Puts the file on the disk before it gets its name"))?
        .arg(arg!(in alloc; --progress).help(progress))?
        .arg(arg!(in alloc; --summary).help(summary))?
        .arg(arg!(in alloc; --"reject-clashes").help(clashes))?
        .arg(arg!(in alloc; -O --overwrite "As osmium's; OUT is always replaced").hide(true))?
        .arg(arg!(in alloc; --"no-progress" "As osmium's; see --progress").hide(true))
}

/// Adds the options of a command that reads files.
fn with_input<'a>(alloc: Global, command: Command<'a>) -> Made<'a> {
    let whole = "Rejects an OPL file whose last line has no line feed, since it may be cut";
    let ended = "Rejects OPL from a pipe that doesn't end with the line \"# end\"";
    let list = "Reads the names of the files from LIST, each ended by NUL; - is standard input";
    command
        .arg(arg!(in alloc; --whole).help(whole))?
        .arg(arg!(in alloc; --ended).help(ended))?
        .arg(arg!(in alloc; --"files0-from" <LIST>).help(list))?
        .arg(hints_arg(alloc))
}

/// The input files, which a list may name.
fn files_arg<'a>(alloc: Global, help: &'a str) -> Result<Arg<'a>, AllocError> {
    let files = arg!(in alloc; files: [FILE] ...).help(help);
    files.required_unless_present(LIST)?.conflicts_with(LIST)
}

fn sorted_arg<'a>(alloc: Global) -> Arg<'a> {
    arg!(in alloc; --sorted "Rejects a file that isn't sorted, so that none is held in memory")
}

fn hints_arg<'a>(alloc: Global) -> Arg<'a> {
    arg!(in alloc; --hints "Says after a failure what to do, as on a terminal")
}
