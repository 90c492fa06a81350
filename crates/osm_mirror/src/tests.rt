//! The commands over small files of each format, with their output worked out by hand.
use crate::{
    CheckReport, InputFile, Kind, Object, Order, Outside, ReadAs, Span, read_moment, run_apply,
    run_check, run_check_sorted, run_merge, run_period_filter, run_selected, run_sort,
    run_time_filter,
};
use osm_files::{Broken, EndRule, Fault, Format, Input, SliceIn, VecOut};
use osm_merge::{Counts, NoProgress, Selection};
use std::alloc::Global;
use std::process::Abort;

const FORMATS: [Format; 3] = [Format::Opl, Format::O5m, Format::O5c];

/// A node and its deletion in o5m: 28 bytes, of which the last is the end byte.
pub(crate) const NODE_THEN_DELETION: &[u8] =
    b"\xff\xe0\x04o5m2\x10\x0b\x02\x01\x02\x02\x00\x01\x00a\x00\x00\x00\x10\x05\x00\x02\x02\x00\x01\xfe";

/// Two nodes, of which the second has the lesser key.
const UNSORTED: &[u8] = b"n2 v1 x1 y1\nn1 v1 x1 y1\n";

/// A command, and its selection.
#[derive(Clone, Copy)]
enum Command {
    Sort,
    Apply { with_history: bool },
    TimeFilter(u32),
    PeriodFilter { from: u32, to: u32 },
    Select(Selection),
}

impl Command {
    fn selection(self) -> Selection {
        match self {
            Command::Sort => Selection::All,
            Command::Apply { with_history: true } => Selection::All,
            Command::Apply {
                with_history: false,
            } => Selection::NewestVisible,
            Command::TimeFilter(time) => Selection::StateVisible(time),
            Command::PeriodFilter { from, to } => Selection::Between { from, to },
            Command::Select(selection) => selection,
        }
    }
}

/// Any order if `is_any` is set, else sorted.
fn any_if(is_any: bool) -> ReadAs {
    ReadAs::InOrder(if is_any { Order::Any } else { Order::Sorted })
}

/// The choice of the files that are read as sorted ones; the others are read as files of any order.
#[derive(Clone, Copy)]
enum Mix {
    AllSorted,
    NoneSorted,
    EverySecond,
    OddAny,
}

impl Mix {
    fn read_as(self, index: usize) -> ReadAs {
        match self {
            Mix::AllSorted => ReadAs::InOrder(Order::Sorted),
            Mix::NoneSorted => ReadAs::InOrder(Order::Any),
            Mix::EverySecond => any_if(index % 2 == 0),
            Mix::OddAny => any_if(index % 2 == 1),
        }
    }
}

const MIXES: [Mix; 4] = [
    Mix::AllSorted,
    Mix::NoneSorted,
    Mix::EverySecond,
    Mix::OddAny,
];

/// Readers of `files`.
pub(crate) fn readers<'a>(alloc: Global, files: &'a [&'a [u8]]) -> Vec<SliceIn<'a>> {
    let mut inputs = Vec::new(alloc);
    for file in files {
        let _ = inputs.push(SliceIn::new(*file));
    }
    inputs
}

/// Readers of `files`. `mix` chooses those that are read as sorted ones.
fn mixed<'a>(alloc: Global, files: &'a [&'a [u8]], mix: Mix) -> Vec<InputFile<SliceIn<'a>>> {
    let mut inputs = Vec::new(alloc);
    for (index, file) in files.iter().enumerate() {
        let _ = inputs.push(InputFile {
            reader: SliceIn::new(*file),
            read_as: mix.read_as(index),
            end: EndRule::Any,
        });
    }
    inputs
}

/// Runs the selection over `files`. `mix` chooses those that are read as sorted ones.
fn select(
    alloc: Global,
    selection: Selection,
    files: &[&[u8]],
    mix: Mix,
    format: Format,
    out: &mut VecOut,
) -> Result<Counts, Fault> {
    run_selected(
        alloc,
        selection,
        mixed(alloc, files, mix),
        format,
        out,
        &mut NoProgress,
    )
}

/// Runs the command over `files`. The filters read only the first file.
fn run(
    alloc: Global,
    command: Command,
    files: &[&[u8]],
    format: Format,
    out: &mut VecOut,
) -> Result<Counts, Fault> {
    let one = files.first().copied().unwrap_or(b"");
    match command {
        Command::Sort => run_sort(alloc, readers(alloc, files), format, out),
        Command::Apply { with_history } => {
            run_apply(alloc, readers(alloc, files), with_history, format, out)
        }
        Command::TimeFilter(time) => run_time_filter(alloc, SliceIn::new(one), time, format, out),
        Command::PeriodFilter { from, to } => {
            run_period_filter(alloc, SliceIn::new(one), from, to, format, out)
        }
        Command::Select(selection) => select(alloc, selection, files, Mix::NoneSorted, format, out),
    }
}

/// The bytes that a job wrote, and then the word `refused` if it was refused.
fn bytes_of(out: VecOut, outcome: Result<Counts, Fault>) -> Vec<u8> {
    let mut bytes = out.into_vec();
    if outcome.is_err() {
        let _ = bytes.extend_from_slice(b"refused");
    }
    bytes
}

/// The file that the command makes of `files`.
fn made(alloc: Global, command: Command, files: &[&[u8]], format: Format) -> Vec<u8> {
    let mut out = VecOut::new(alloc);
    let outcome = run(alloc, command, files, format, &mut out);
    bytes_of(out, outcome)
}

/// The file that the job with the selection makes of `files`. `mix` chooses those that are read as sorted ones.
fn chosen(
    alloc: Global,
    selection: Selection,
    files: &[&[u8]],
    mix: Mix,
    format: Format,
) -> Vec<u8> {
    let mut out = VecOut::new(alloc);
    let outcome = select(alloc, selection, files, mix, format, &mut out);
    bytes_of(out, outcome)
}

/// The versions of `file`, sorted, as a file of the format `format`.
fn in_format(alloc: Global, file: &[u8], format: Format) -> Vec<u8> {
    made(alloc, Command::Sort, &[file], format)
}

/// Whether the command, and all jobs with its selection, make `file` of `files`.
fn is_made_of(
    alloc: Global,
    command: Command,
    files: &[&[u8]],
    format: Format,
    file: &[u8],
) -> bool {
    let mut is_made = made(alloc, command, files, format).as_slice() == file;
    for mix in MIXES {
        is_made &= chosen(alloc, command.selection(), files, mix, format).as_slice() == file;
    }
    is_made
}

/// Whether the command makes the versions of `wanted` of `files`, in each format.
fn is_made_in_all(alloc: Global, command: Command, files: &[&[u8]], wanted: &[u8]) -> bool {
    let mut is_made = true;
    for format in FORMATS {
        let file = in_format(alloc, wanted, format);
        is_made &= is_made_of(alloc, command, files, format, &file);
    }
    is_made
}

/// Whether the command makes the versions of `wanted`, in each format, of one or two files in the format `given`.
fn is_made_from(
    alloc: Global,
    command: Command,
    files: &[&[u8]],
    given: Format,
    wanted: &[u8],
) -> bool {
    let first = in_format(alloc, files.first().copied().unwrap_or(b""), given);
    let second = in_format(alloc, files.last().copied().unwrap_or(b""), given);
    if files.len() == 1 {
        is_made_in_all(alloc, command, &[first.as_slice()], wanted)
    } else {
        is_made_in_all(
            alloc,
            command,
            &[first.as_slice(), second.as_slice()],
            wanted,
        )
    }
}

/// A command, one or two files, and the canonical lines that it makes of them.
type Row = (Command, &'static [&'static [u8]], &'static [u8]);

/// Asserts that the command of each row makes its lines, in all formats.
fn assert_rows<R: AllocGlobal + Abort>(rt: &R, rows: &[Row]) {
    for (command, files, wanted) in rows {
        for given in FORMATS {
            assert!(rt; is_made_from(rt.alloc(), *command, files, given, wanted));
        }
        assert_eq!(rt;
            made(rt.alloc(), *command, files, Format::Opl).as_slice(),
            *wanted
        );
    }
}

const GONE: Command = Command::Apply {
    with_history: false,
};

const KEPT: Command = Command::Apply { with_history: true };

const SNAPSHOT: Command = Command::Select(Selection::Newest);

const CREATED: &[u8] = b"n1 v1 dV x1 y1\n";

const DELETED: &[u8] = b"n1 v2 dD\n";

const CREATED_THEN_DELETED: &[u8] = b"n1 v1 dV c0 t i0 u T x1 y1\nn1 v2 dD c0 t i0 u T x y\n";

const FIRST: &[u8] = b"n1 v1 dV c0 t i0 u T x1 y1\n";

const DELETION: &[u8] = b"n1 v2 dD c0 t i0 u T x y\n";

const DELETIONS: &[Row] = &[
    (GONE, &[CREATED, DELETED], b""),
    (GONE, &[DELETED, CREATED], b""),
    (KEPT, &[CREATED, DELETED], CREATED_THEN_DELETED),
];

#[test]
fn apply_deletion(rt: HostRuntime) {
    assert_rows(&rt, DELETIONS);
}

const SECOND_FILE: &[Row] = &[
    (SNAPSHOT, &[CREATED], FIRST),
    (SNAPSHOT, &[CREATED, DELETED], DELETION),
    (SNAPSHOT, &[DELETED, CREATED], DELETION),
    (Command::Sort, &[DELETED, CREATED], CREATED_THEN_DELETED),
];

#[test]
fn deletion_from_second_file(rt: HostRuntime) {
    assert_rows(&rt, SECOND_FILE);
}

const AT_9_EAST: &[u8] = b"n1 v1 dV c0 t i0 u T x9 y1\n";

const TWO_LOCATIONS: &[Row] = &[
    (
        Command::Sort,
        &[b"n1 v1 dV x9 y1\n", b"n1 v1 dV x10 y1\n"],
        b"n1 v1 dV c0 t i0 u T x10 y1\nn1 v1 dV c0 t i0 u T x9 y1\n",
    ),
    (
        SNAPSHOT,
        &[b"n1 v1 dV x9 y1\n", b"n1 v1 dV x10 y1\n"],
        AT_9_EAST,
    ),
    (
        GONE,
        &[b"n1 v1 dV x9 y1\n", b"n1 v1 dV x10 y1\n"],
        AT_9_EAST,
    ),
];

#[test]
fn same_key_two_locations(rt: HostRuntime) {
    assert_rows(&rt, TWO_LOCATIONS);
}

const TIE: &[Row] = &[
    (
        Command::Sort,
        &[b"n1 v1 dD\n", b"n1 v1 dV x1 y1\n"],
        b"n1 v1 dV c0 t i0 u T x1 y1\nn1 v1 dD c0 t i0 u T x y\n",
    ),
    (
        SNAPSHOT,
        &[b"n1 v1 dD\n", b"n1 v1 dV x1 y1\n"],
        b"n1 v1 dD c0 t i0 u T x y\n",
    ),
    (GONE, &[b"n1 v1 dD\n", b"n1 v1 dV x1 y1\n"], b""),
];

#[test]
fn visible_and_deleted_tie(rt: HostRuntime) {
    assert_rows(&rt, TIE);
}

const LETTER: &[u8] = b"n1 v1 dV c0 t i0 u T\xc3\xa9=1 x1 y1\n";

const REFERENCE: &[u8] = b"w1 v1 dV c0 t i0 u T Nn1\n";

const HALF: &[u8] = b"n1 v1 dV c0 t i0 u T x1.5 y1\n";

const TIES: &[Row] = &[
    (
        SNAPSHOT,
        &[LETTER, b"n1 v1 dV c0 t i0 u T%1f600%=1 x1 y1\n"],
        LETTER,
    ),
    (SNAPSHOT, &[REFERENCE, b"w1 v1\n"], REFERENCE),
    (SNAPSHOT, &[b"n1 v1 x1 y1\n", HALF], HALF),
];

#[test]
fn byte_order_ties(rt: HostRuntime) {
    assert_rows(&rt, TIES);
}

const IDS: &[Row] = &[(
    Command::Sort,
    &[b"n3 v1 x1 y1\nn-2 v1 x1 y1\nn0 v1 x1 y1\nn-1 v1 x1 y1\n"],
    b"n0 v1 dV c0 t i0 u T x1 y1\nn-1 v1 dV c0 t i0 u T x1 y1\nn-2 v1 dV c0 t i0 u T x1 y1\n\
      n3 v1 dV c0 t i0 u T x1 y1\n",
)];

#[test]
fn sort_ids(rt: HostRuntime) {
    assert_rows(&rt, IDS);
}

/// The later version has the earlier time.
const LATER_IS_EARLIER: &[u8] =
    b"n1 v1 dV t1970-01-01T00:00:10Z x1 y1\nn1 v2 dV t1970-01-01T00:00:05Z x2 y1\n";

const AT_FIVE: &[u8] = b"n1 v2 dV c0 t1970-01-01T00:00:05Z i0 u T x2 y1\n";

const MOMENTS: &[Row] = &[
    (Command::TimeFilter(7), &[LATER_IS_EARLIER], AT_FIVE),
    (Command::TimeFilter(4), &[LATER_IS_EARLIER], b""),
    (Command::TimeFilter(10), &[LATER_IS_EARLIER], AT_FIVE),
];

#[test]
fn moment_seven(rt: HostRuntime) {
    assert_rows(&rt, MOMENTS);
}

const THREE_VERSIONS: &[u8] =
    b"n1 v1 t1970-01-01T00:00:10Z x1 y1\nn1 v2 t1970-01-01T00:00:20Z x2 y1\nn1 v3 dD t1970-01-01T00:00:30Z\n";

const SAME_TIMES: &[u8] = b"n2 v1 t1970-01-01T00:00:20Z x1 y1\nn2 v2 t1970-01-01T00:00:20Z x2 y1\n";

const PERIODS: &[Row] = &[
    (
        Command::PeriodFilter { from: 20, to: 30 },
        &[THREE_VERSIONS],
        b"n1 v2 dV c0 t1970-01-01T00:00:20Z i0 u T x2 y1\n",
    ),
    (
        Command::PeriodFilter { from: 15, to: 31 },
        &[THREE_VERSIONS],
        b"n1 v1 dV c0 t1970-01-01T00:00:10Z i0 u T x1 y1\nn1 v2 dV c0 t1970-01-01T00:00:20Z i0 u T x2 y1\n\
          n1 v3 dD c0 t1970-01-01T00:00:30Z i0 u T x y\n",
    ),
    (
        Command::PeriodFilter { from: 31, to: 40 },
        &[THREE_VERSIONS],
        b"n1 v3 dD c0 t1970-01-01T00:00:30Z i0 u T x y\n",
    ),
    (
        Command::PeriodFilter { from: 5, to: 10 },
        &[THREE_VERSIONS],
        b"",
    ),
    (
        Command::PeriodFilter { from: 20, to: 21 },
        &[SAME_TIMES],
        b"n2 v1 dV c0 t1970-01-01T00:00:20Z i0 u T x1 y1\nn2 v2 dV c0 t1970-01-01T00:00:20Z i0 u T x2 y1\n",
    ),
    (
        Command::PeriodFilter { from: 21, to: 22 },
        &[SAME_TIMES],
        b"n2 v2 dV c0 t1970-01-01T00:00:20Z i0 u T x2 y1\n",
    ),
    (
        Command::PeriodFilter { from: 6, to: 11 },
        &[LATER_IS_EARLIER],
        AT_FIVE,
    ),
];

#[test]
fn period_table(rt: HostRuntime) {
    assert_rows(&rt, PERIODS);
}

const EMPTY: &[&[u8]] = &[b"", b""];

const STATE: Command = Command::TimeFilter(7);

const PERIOD: Command = Command::PeriodFilter { from: 1, to: 7 };

/// Small files. A version without a time came before every moment.
const LITTLE: &[Row] = &[
    (Command::Sort, EMPTY, b""),
    (GONE, EMPTY, b""),
    (STATE, EMPTY, b""),
    (PERIOD, EMPTY, b""),
    (GONE, &[CREATED, b""], FIRST),
    (GONE, &[DELETED], b""),
    (STATE, &[CREATED], FIRST),
    (STATE, &[DELETED], b""),
    (PERIOD, &[DELETED], DELETION),
];

#[test]
fn little_is_made_of_little(rt: HostRuntime) {
    assert_rows(&rt, LITTLE);
}

/// The counts of a command over `files`: read, written and compared.
fn counted(alloc: Global, command: Command, files: &[&[u8]]) -> Option<(u64, u64, u64)> {
    let mut out = VecOut::new(alloc);
    match run(alloc, command, files, Format::O5m, &mut out) {
        Ok(counts) => Some((counts.read, counts.written, counts.compared)),
        Err(_) => None,
    }
}

#[test]
fn versions_are_counted(rt: HostRuntime) {
    let files = [CREATED, DELETED, CREATED];
    for (command, written) in [(Command::Sort, 2), (GONE, 0), (KEPT, 2)] {
        assert!(rt; counted(rt.alloc(), command, &files) == Some((3, written, 0)));
    }
}

/// Appends the fault of a job, or that there is none.
fn push_fault(text: &mut String, outcome: Result<Counts, Fault>) {
    let _ = match outcome {
        Ok(_) => writeln!(text, "done"),
        Err(fault) => writeln!(text, "{fault}"),
    };
}

/// Appends the result of a check.
fn push_report(text: &mut String, outcome: Result<CheckReport, Fault>) {
    let report = match outcome {
        Ok(report) => report,
        Err(fault) => {
            let _ = writeln!(text, "{fault}");
            return;
        }
    };
    let format = report.format.name();
    let order = if report.sorted { "sorted" } else { "unsorted" };
    let _ = writeln!(
        text,
        "{format}: {} versions, {} objects, {order}",
        report.versions, report.objects
    );
}

/// The results of the two checks of a file.
fn checked_text(alloc: Global, file: &[u8]) -> String {
    let mut text = String::new(alloc);
    push_report(&mut text, run_check(alloc, SliceIn::new(file)));
    push_report(&mut text, run_check_sorted(alloc, SliceIn::new(file)));
    text
}

/// The results of the jobs over a file that must be sorted, and the number of bytes that they write.
fn sorted_text(alloc: Global, file: &[u8]) -> String {
    let mut text = String::new(alloc);
    let mut out = VecOut::new(alloc);
    let files = [file];
    let merged = run_merge(alloc, readers(alloc, &files), Format::Opl, &mut out);
    push_fault(&mut text, merged);
    let selected = select(
        alloc,
        Selection::All,
        &files,
        Mix::AllSorted,
        Format::Opl,
        &mut out,
    );
    push_fault(&mut text, selected);
    let _ = writeln!(text, "{}", out.into_vec().len());
    text
}

#[test]
fn unsorted_file(rt: HostRuntime) {
    let alloc = rt.alloc();
    assert_eq!(rt;
        sorted_text(alloc, UNSORTED).as_str(),
        "file 0, byte 12: Unsorted\nfile 0, byte 12: Unsorted\n0\n"
    );
    assert_eq!(rt;
        in_format(alloc, UNSORTED, Format::Opl).as_slice(),
        b"n1 v1 dV c0 t i0 u T x1 y1\nn2 v1 dV c0 t i0 u T x1 y1\n".as_slice()
    );
    assert_eq!(rt;
        checked_text(alloc, UNSORTED).as_str(),
        "opl: 2 versions, 2 objects, unsorted\nfile 0, byte 12: Unsorted\n"
    );
}

#[test]
fn check_and_cut(rt: HostRuntime) {
    let alloc = rt.alloc();
    assert_eq!(rt;
        checked_text(alloc, NODE_THEN_DELETION).as_str(),
        "o5m: 2 versions, 1 objects, sorted\no5m: 2 versions, 1 objects, sorted\n"
    );
    assert_eq!(rt;
        checked_text(alloc, &NODE_THEN_DELETION[..27]).as_str(),
        "file 0, byte 27: NoEnd\nfile 0, byte 27: NoEnd\n"
    );
}

/// The results of two jobs over three files of which the second is cut, and the number of bytes that the jobs write.
/// The second job streams the first and the third file.
fn cut_text(alloc: Global, format: Format) -> String {
    let mut text = String::new(alloc);
    let mut out = VecOut::new(alloc);
    let files = [CREATED, &NODE_THEN_DELETION[..27], DELETED];
    let sorted = run(alloc, Command::Sort, &files, format, &mut out);
    push_fault(&mut text, sorted);
    let mixed = select(alloc, Selection::All, &files, Mix::OddAny, format, &mut out);
    push_fault(&mut text, mixed);
    let _ = writeln!(text, "{}", out.into_vec().len());
    text
}

#[test]
fn nothing_is_written_before_all_are_read(rt: HostRuntime) {
    for format in FORMATS {
        assert_eq!(rt;
            cut_text(rt.alloc(), format).as_str(),
            "file 1, byte 27: NoEnd\nfile 1, byte 27: NoEnd\n0\n"
        );
    }
}

/// An input that gives one byte in each read, and then ends or fails.
#[derive(Drop)]
struct Dripping<'a> {
    rest: &'a [u8],
    fails: bool,
}

impl Input for Dripping<'_> {
    ghost use Rattle.osm_files.specs.Input.{whole_input};
    ghost use Rattle.std.specs.Prelude.{[]};

    ghost can_give = { λ _ _. Unit {0} };

    ghost one = { λ _. whole_input [] };

    ghost possible = { λ _. tt };

    fn read(&mut self, buffer: &mut [u8]) -> Result<usize, Broken> {
        let Some((first, rest)) = self.rest.split_first() else {
            return if self.fails { Err(Broken) } else { Ok(0) };
        };
        let Some(byte) = buffer.first_mut() else {
            return Ok(0);
        };
        *byte = *first;
        self.rest = rest;
        Ok(1)
    }
}

/// A file that fails after its last byte.
fn failing<'a>() -> Dripping<'a> {
    Dripping {
        rest: DELETED,
        fails: true,
    }
}

/// A file that ends, and one that fails after its last byte.
fn one_fails<'a>(alloc: Global) -> Vec<Dripping<'a>> {
    let mut inputs = Vec::new(alloc);
    let _ = inputs.push(Dripping {
        rest: CREATED,
        fails: false,
    });
    let _ = inputs.push(failing());
    inputs
}

/// The results of the commands over an input that fails, and the number of bytes that they write.
fn failing_text(alloc: Global) -> String {
    let mut text = String::new(alloc);
    let mut out = VecOut::new(alloc);
    let sorted = run_sort(alloc, one_fails(alloc), Format::Opl, &mut out);
    push_fault(&mut text, sorted);
    let applied = run_apply(alloc, one_fails(alloc), true, Format::O5m, &mut out);
    push_fault(&mut text, applied);
    let state = run_time_filter(alloc, failing(), 7, Format::O5c, &mut out);
    push_fault(&mut text, state);
    let period = run_period_filter(alloc, failing(), 1, 7, Format::Opl, &mut out);
    push_fault(&mut text, period);
    push_report(&mut text, run_check(alloc, failing()));
    push_report(&mut text, run_check_sorted(alloc, failing()));
    let _ = writeln!(text, "{}", out.into_vec().len());
    text
}

#[test]
fn an_input_that_fails_is_named(rt: HostRuntime) {
    assert_eq!(rt;
        failing_text(rt.alloc()).as_str(),
        "file 1, byte 9: ReadFault\nfile 1, byte 9: ReadFault\nfile 0, byte 9: ReadFault\nfile 0, byte 9: ReadFault\n\
        file 0, byte 9: ReadFault\nfile 0, byte 9: ReadFault\n0\n"
    );
}

/// The versions of the nodes from id 2 up to below id 4 in a whole file, joined with a file in any order.
fn joined_slice(alloc: Global, whole: &[u8], unsorted: &[u8]) -> Vec<u8> {
    let node = |id| {
        Some(Object {
            kind: Kind::Node,
            id,
        })
    };
    let span = Span {
        from: node(2),
        to: node(4),
    };
    let mut inputs = Vec::new(alloc);
    for (file, read_as) in [
        (whole, ReadAs::Within(span, Outside::Dropped)),
        (unsorted, ReadAs::InOrder(Order::Any)),
    ] {
        let _ = inputs.push(InputFile {
            reader: SliceIn::new(file),
            read_as,
            end: EndRule::Any,
        });
    }
    let mut out = VecOut::new(alloc);
    let outcome = run_selected(
        alloc,
        Selection::All,
        inputs,
        Format::Opl,
        &mut out,
        &mut NoProgress,
    );
    bytes_of(out, outcome)
}

#[test]
fn a_file_within_a_span_is_joined_with_others(rt: HostRuntime) {
    let whole = b"n1 v1 x1 y1\nn2 v1 x1 y1\nn3 v1 x1 y1\nn4 v1 x1 y1\n";
    let unsorted = b"n5 v1 x1 y1\nn1 v2 x1 y1\n";
    assert_eq!(rt;
        joined_slice(rt.alloc(), whole, unsorted).as_slice(),
        b"n1 v2 dV c0 t i0 u T x1 y1\nn2 v1 dV c0 t i0 u T x1 y1\nn3 v1 dV c0 t i0 u T x1 y1\n\
        n5 v1 dV c0 t i0 u T x1 y1\n"
            .as_slice()
    );
}

#[test]
fn old_order_files(rt: HostRuntime) {
    let file =
        b"\xff\xe0\x04o5m2\x10\x03\x02\x01\x00\x10\x0b\x00\x01\x00\x80\xda\xc4\x09\x80\xda\xc4\x09\xfe";
    let sorted =
        b"\xff\xe0\x04o5m2\x10\x0b\x02\x01\x00\x80\xda\xc4\x09\x80\xda\xc4\x09\x10\x03\x00\x01\x00\xfe";
    for mix in MIXES {
        assert_eq!(rt;
            chosen(rt.alloc(), Selection::All, &[file], mix, Format::O5m).as_slice(),
            sorted.as_slice()
        );
    }
}

#[test]
fn moments_are_read(rt: HostRuntime) {
    for (text, moment) in [
        (b"1970-01-01T00:00:07Z".as_slice(), Some(7)),
        (b"2106-02-07T06:28:15Z", Some(4_294_967_295)),
        (b"1970-01-01T00:00:00Z", None),
        (b"2106-02-07T06:28:16Z", None),
        (b"7", None),
        (b"", None),
    ] {
        assert!(rt; read_moment(text) == moment);
    }
}
