//! The texts about checked files.
use super::{CheckedFile, CheckedJson, RefusedJson};
use crate::{Checked, run_tally};
use osm_files::{EndRule, Fault, SliceIn};
use std::alloc::Global;
use std::fmt::Display;

/// Two versions of a node, of which one is a deletion, and a way without a time.
const FILE: &[u8] =
    b"w1 v1 dV Nn1\nn1 v2 dD c1 t2014-05-06T07:08:09Z i1 ua\nn1 v1 dV c1 t1970-01-01T00:00:01Z i1 ua x1 y1\n";

/// Whether the text of `shown` is `text`.
fn is_text<D: Display + Drop>(alloc: Global, shown: D, text: &str) -> bool {
    format!(in alloc; "{shown}").is_ok_and(|found| found.as_str() == text)
}

/// The check of the file with these bytes.
fn checked(alloc: Global, bytes: &[u8]) -> Result<Checked, Fault> {
    run_tally(alloc, EndRule::Any, SliceIn::new(bytes))
}

#[test]
fn files_have_tallies(rt: HostRuntime) {
    let alloc = rt.alloc();
    for (bytes, report, line, json) in [
        (
            FILE,
            "opl: 3 versions, 2 objects, unsorted",
            "osm_hist: check: a\\x1b: 2 nodes, 1 ways, 0 relations, 1 deleted, \
            from 1970-01-01T00:00:01Z to 2014-05-06T07:08:09Z, 9 bytes",
            "{\"name\": \"a\\u001b\", \"format\": \"opl\", \"versions\": 3, \"objects\": 2, \"sorted\": false, \
            \"nodes\": 2, \"ways\": 1, \"relations\": 0, \"deleted\": 1, \"first\": \"1970-01-01T00:00:01Z\", \
            \"last\": \"2014-05-06T07:08:09Z\", \"bytes\": 9}",
        ),
        (
            b"r1 v1\nr1 v1\n",
            "opl: 1 versions, 1 objects, sorted",
            "osm_hist: check: a\\x1b: 0 nodes, 0 ways, 1 relations, 0 deleted, no times, 9 bytes",
            "{\"name\": \"a\\u001b\", \"format\": \"opl\", \"versions\": 1, \"objects\": 1, \"sorted\": true, \
            \"nodes\": 0, \"ways\": 0, \"relations\": 1, \"deleted\": 0, \"first\": null, \"last\": null, \
            \"bytes\": 9}",
        ),
    ] {
        let file = checked(alloc, bytes).map(|checked| CheckedFile {
            name: "a\u{1b}",
            bytes: 9,
            checked,
        });
        assert!(rt;
            file.is_ok_and(|file| is_text(alloc, file.checked.report, report)
                && is_text(alloc, file, line)
                && is_text(alloc, CheckedJson(file), json))
        );
    }
}

#[test]
fn refused_files_have_objects(rt: HostRuntime) {
    for (place, reason, json) in [
        (
            Some(28),
            "NoLocation",
            "{\"name\": \"a\\\"b\", \"error\": {\"place\": 28, \"reason\": \"NoLocation\"}}",
        ),
        (
            None,
            "cannot read",
            "{\"name\": \"a\\\"b\", \"error\": {\"reason\": \"cannot read\"}}",
        ),
    ] {
        let name = "a\"b";
        let refused = RefusedJson {
            name,
            place,
            reason,
        };
        assert!(rt; is_text(rt.alloc(), refused, json));
    }
}
