//! Jobs over inputs within a span.
use crate::run::{InputFile, ReadAs, run_selected};
use osm_files::{EndRule, Format, SliceIn, VecOut};
use osm_merge::{NoProgress, Outside, Selection, Span};
use osm_model::{Kind, Object};
use std::alloc::Global;

/// Versions of three nodes.
const FILE: &[u8] = b"n1 v1 dD\nn2 v1 dD\nn3 v1 dD\n";

/// What a job for the second node writes of a file, or the job's fault.
fn within_text(alloc: Global, file: &[u8], outside: Outside) -> String {
    let mut text = String::new(alloc);
    let mut inputs = Vec::new(alloc);
    let node = |id| {
        Some(Object {
            kind: Kind::Node,
            id,
        })
    };
    let span = Span {
        from: node(2),
        to: node(3),
    };
    let _ = inputs.push(InputFile {
        reader: SliceIn::new(file),
        read_as: ReadAs::Within(span, outside),
        end: EndRule::Any,
    });
    let mut out = VecOut::new(alloc);
    let outcome = run_selected(
        alloc,
        Selection::All,
        inputs,
        Format::Opl,
        &mut out,
        &mut NoProgress,
    );
    match outcome {
        Ok(counts) => {
            let _ = write!(text, "{} of {}", counts.written, out.into_vec().len());
        }
        Err(fault) => {
            let _ = write!(text, "{fault}");
        }
    }
    text
}

#[test]
fn versions_within_a_span_are_written(rt: HostRuntime) {
    for (file, outside, text) in [
        (FILE, Outside::Dropped, "1 of 25"),
        (FILE, Outside::Refused, "file 0, byte 0: Unsorted"),
        (b"n2 v1 dD\n".as_slice(), Outside::Refused, "1 of 25"),
        (
            b"n1 v1 dD\nn1\n".as_slice(),
            Outside::Dropped,
            "file 0, byte 9: NoVersion",
        ),
        (
            b"n3 v1 dD\nn4 v1 dD\nn1\n".as_slice(),
            Outside::Dropped,
            "0 of 0",
        ),
    ] {
        assert_eq!(rt; within_text(rt.alloc(), file, outside).as_str(), text);
    }
}
