//! Jobs over open files and streams, and the numbers of their turns.
ghost use Rattle.std.specs.Prelude.{◌≡◌};

use super::{FilesJob, JobFile, Order, run_files};
use osm_files::{Broken, CutBackOutput, EndRule, Format, Output, SliceIn, VecOut};
use osm_merge::{Progress, Relation, Selection};
use osm_model::Version;
use std::alloc::Global;

/// Two nodes, sorted.
const SORTED: &[u8] = b"n1 v1 dD\nn3 v1 dD\n";

/// Two nodes, not sorted. The second begins at the offset 9.
const UNSORTED: &[u8] = b"n4 v1 dD\nn2 v1 dD\n";

/// Two other nodes, not sorted.
const UNSORTED_TOO: &[u8] = b"n6 v1 dD\nn5 v1 dD\n";

/// A node, and a line that can't be read at the offset 9.
const FAULTY: &[u8] = b"n7 v1 dD\nn7\n";

/// A file in which no line but the first begins where it may be split.
const MANY: &[u8] = b"n9 v1 dD\nn8 v1 dD\nn7 v1 dD\nn6 v1 dD\n";

/// Two nodes, and a line that can't be read at the offset 18.
const FAULTY_END: &[u8] = b"n1 v1 dD\nn2 v1 dD\nn3 v1\n";

/// Two nodes, not sorted, and two lines that can't be read. Their first one, at the offset 26, has a key, so that a
/// search by keys finds the second one.
const FAULTY_RUNS: &[u8] = b"n500 v1 x1 y1\nn1 v1 x1 y1\nn2 v1 x1\nn3 vX x1 y1\n";

/// Nodes 1 and 2. Node 2 has a visible and a deleted version of one number.
const CLASH: &[u8] = b"n1 v1 dD\nn2 v1 dD\nn2 v1 dV x1 y1\n";

/// The nodes 2 and 3, not sorted. Node 3 has a visible and a deleted version of one number, which are apart.
const UNSORTED_CLASH: &[u8] = b"n3 v1 dD\nn2 v1 dD\nn3 v1 dV x1 y1\n";

/// Nodes 3, 2 and 3 in o5m, without a reset, so that the file can't be split. Node 3 has a deleted and a visible
/// version of one number.
const HELD_CLASH: &[u8] = b"\xff\xe0\x04o5m2\x10\x03\x06\x01\x00\x10\x05\x01\x01\x00\x02\x02\
    \x10\x05\x02\x01\x00\x00\x00\xfe";

/// The number of turns of a job.
#[derive(Clone, Copy)]
struct Turns(usize);

impl Progress for Turns {
    fn begin(&mut self) {
        self.0 = self.0.saturating_add(1);
    }

    fn read(&mut self, _version: &Version, _relation: Relation) {}

    fn written(&mut self, _version: &Version) {}
}

/// An output in memory, which takes `room` writes.
#[derive(Drop)]
struct Memory {
    out: VecOut,
    can_be_cut_back: bool,
    room: usize,
    failed: bool,
}

impl Output for Memory {
    ghost holds = { λ s held. s.out.bytes ≡ held };

    ghost failed = { λ s. s.failed };

    fn write(&mut self, bytes: &[u8]) -> Result<usize, Broken> {
        if self.failed || self.room == 0 {
            self.failed = true;
            return Err(Broken);
        }
        self.room -= 1;
        match self.out.write(bytes) {
            Ok(count) => Ok(count),
            Err(Broken) => {
                self.failed = true;
                Err(Broken)
            }
        }
    }

    fn flush(&mut self) -> Result<(), Broken> {
        if self.failed { Err(Broken) } else { Ok(()) }
    }
}

impl CutBackOutput for Memory {
    ghost can_cut = { λ s. s.can_be_cut_back };

    fn can_be_cut_back(&self) -> bool {
        self.can_be_cut_back
    }

    fn length(&mut self) -> Result<u64, Broken> {
        match self.out.length() {
            Ok(length) => Ok(length),
            Err(Broken) => {
                self.failed = true;
                Err(Broken)
            }
        }
    }

    fn cut_back(&mut self, length: u64) -> Result<(), Broken> {
        match self.out.cut_back(length) {
            Ok(()) => Ok(()),
            Err(Broken) => {
                self.failed = true;
                Err(Broken)
            }
        }
    }
}

/// The ways in which a job reads and writes.
#[derive(Clone, Copy)]
struct Setting {
    order: Order,
    tries_largest: bool,
    has_stream: bool,
    can_be_cut_back: bool,
    room: usize,
}

/// A job over files in any order to an output that can be cut back.
const ANY: Setting = Setting {
    order: Order::Any,
    tries_largest: true,
    has_stream: false,
    can_be_cut_back: true,
    room: 99,
};

/// The same to an output that can't be cut back.
const ONCE: Setting = Setting {
    can_be_cut_back: false,
    ..ANY
};

/// A job over sorted files.
const IN_ORDER: Setting = Setting {
    order: Order::Sorted,
    ..ANY
};

/// The files as files of a job. The last one is a stream if `has_stream` is set.
fn files_of<'f>(
    alloc: Global,
    files: &'f [&'f [u8]],
    has_stream: bool,
) -> Vec<JobFile<'f, &'f [u8], SliceIn<'f>>> {
    let mut inputs = Vec::new(alloc);
    for (index, file) in files.iter().enumerate() {
        let is_last = index + 1 == files.len();
        let _ = inputs.push(if has_stream && is_last {
            JobFile::Stream(SliceIn::new(*file), EndRule::Any)
        } else {
            JobFile::File(file, EndRule::Any)
        });
    }
    inputs
}

/// The number of turns of a job over `files`, its output and the number of clashes, if there are any; or its fault and
/// the number of bytes that the output holds. Before the job it holds two bytes.
fn outcome(alloc: Global, files: &[&[u8]], setting: Setting) -> String {
    let mut out = Memory {
        out: VecOut::new(alloc),
        can_be_cut_back: setting.can_be_cut_back,
        room: setting.room,
        failed: false,
    };
    let _ = out.out.write(b"#\n");
    let run = FilesJob {
        selection: Selection::All,
        order: setting.order,
        tries_largest: setting.tries_largest,
        format: Format::Opl,
    };
    let mut turns = Turns(0);
    let inputs = files_of(alloc, files, setting.has_stream);
    let result = run_files(alloc, run, inputs, &mut out, &mut turns);
    let bytes = out.out.into_vec();
    let mut text = String::new(alloc);
    let _ = write!(text, "{}: ", turns.0);
    match result {
        Ok(counts) => {
            for line in str::from_utf8(&bytes).unwrap_or("?").lines().skip(1) {
                let _ = text.push_str(line.split(' ').next().unwrap_or("?"));
            }
            if counts.clashes > 0 {
                let _ = write!(text, ", {} clashes", counts.clashes);
            }
        }
        Err(fault) => {
            let _ = write!(text, "{fault}, {}", bytes.len());
        }
    }
    text
}

#[test]
fn a_job_has_at_most_two_turns(rt: HostRuntime) {
    for (files, text) in [
        ([SORTED, SORTED, SORTED].as_slice(), "1: n1n3"),
        (&[CLASH, SORTED, CLASH], "1: n1n2n2n3, 1 clashes"),
        (&[UNSORTED_CLASH, CLASH], "2: n1n2n2n3n3, 2 clashes"),
        (&[CLASH, UNSORTED_CLASH], "1: n1n2n2n3n3, 2 clashes"),
        (&[HELD_CLASH, CLASH], "1: n1n2n2n2n3n3, 2 clashes"),
        (&[HELD_CLASH], "2: n2n3n3, 1 clashes"),
        (&[SORTED, UNSORTED], "1: n1n2n3n4"),
        (&[UNSORTED, SORTED], "2: n1n2n3n4"),
        (&[UNSORTED, UNSORTED_TOO], "2: n2n4n5n6"),
        (&[UNSORTED, UNSORTED_TOO, MANY], "2: n2n4n5n6n7n8n9"),
        (&[MANY], "2: n6n7n8n9"),
        (&[], "1: "),
        (&[SORTED, FAULTY], "0: file 1, byte 9: NoVersion, 2"),
        (&[FAULTY_END], "1: file 0, byte 18: NoLocation, 2"),
        (&[FAULTY_RUNS], "1: file 0, byte 26: NoLocation, 2"),
    ] {
        assert_eq!(rt; outcome(rt.alloc(), files, ANY).as_str(), text);
    }
}

#[test]
fn each_file_is_looked_through(rt: HostRuntime) {
    let all = Setting {
        tries_largest: false,
        ..ANY
    };
    let stream = Setting {
        has_stream: true,
        ..ANY
    };
    for (setting, files, text) in [
        (all, [UNSORTED, UNSORTED_TOO].as_slice(), "1: n2n4n5n6"),
        (all, &[FAULTY_RUNS], "0: file 0, byte 26: NoLocation, 2"),
        (ONCE, &[UNSORTED, UNSORTED_TOO], "1: n2n4n5n6"),
        (ONCE, &[SORTED, UNSORTED], "1: n1n2n3n4"),
        (ONCE, &[HELD_CLASH], "1: n2n3n3, 1 clashes"),
        (ONCE, &[SORTED, FAULTY], "0: file 1, byte 9: NoVersion, 2"),
        (ONCE, &[FAULTY_END], "0: file 0, byte 18: NoLocation, 2"),
        (ONCE, &[FAULTY_RUNS], "0: file 0, byte 26: NoLocation, 2"),
        (stream, &[UNSORTED, UNSORTED_TOO], "1: n2n4n5n6"),
        (stream, &[SORTED, CLASH], "1: n1n2n2n3, 1 clashes"),
        (stream, &[CLASH, UNSORTED_CLASH], "1: n1n2n2n3n3, 2 clashes"),
        (
            stream,
            &[UNSORTED, FAULTY],
            "1: file 1, byte 9: NoVersion, 2",
        ),
    ] {
        assert_eq!(rt; outcome(rt.alloc(), files, setting).as_str(), text);
    }
}

#[test]
fn a_write_fault_has_the_bytes_of_its_turn(rt: HostRuntime) {
    // A line has 25 bytes. The second write fails.
    for (setting, files, text) in [
        (
            ANY,
            [SORTED].as_slice(),
            "1: file 1, byte 25: WriteFault, 2",
        ),
        (ANY, &[UNSORTED], "2: file 1, byte 25: WriteFault, 2"),
        (ONCE, &[SORTED], "1: file 1, byte 25: WriteFault, 27"),
        (IN_ORDER, &[SORTED], "1: file 1, byte 25: WriteFault, 27"),
    ] {
        let full = Setting { room: 1, ..setting };
        assert_eq!(rt; outcome(rt.alloc(), files, full).as_str(), text);
    }
}

#[test]
fn sorted_files_are_required(rt: HostRuntime) {
    for has_stream in [false, true] {
        let sorted = Setting {
            has_stream,
            ..IN_ORDER
        };
        assert_eq!(rt;
            outcome(rt.alloc(), &[SORTED, SORTED], sorted).as_str(),
            "1: n1n3"
        );
        assert_eq!(rt;
            outcome(rt.alloc(), &[SORTED, UNSORTED], sorted).as_str(),
            "1: file 1, byte 9: Unsorted, 2"
        );
    }
}
