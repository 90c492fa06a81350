//! Jobs for shards.
use super::{ShardJob, run_shard};
use crate::run::shard::Shard;
use osm_files::{EndRule, Format, VecOut};
use osm_merge::{NoProgress, Selection};
use osm_model::Memory;
use std::alloc::Global;

/// Nodes 1 and 2, nodes 3 and 4, and ways 1 and 2. Each line has nine bytes.
const FIRST: &[u8] = b"n1 v1 dD\nn2 v1 dD\n";

const SECOND: &[u8] = b"n3 v1 dD\nn4 v1 dD\n";

const WAYS: &[u8] = b"w1 v1 dD\nw2 v1 dD\n";
/// Nodes 1 to 6.
const LONG: &[u8] = b"n1 v1 dD\nn2 v1 dD\nn3 v1 dD\nn4 v1 dD\nn5 v1 dD\nn6 v1 dD\n";
/// Node 7.
const SHORT: &[u8] = b"n7 v1 dD\n";
/// Nodes 2, 3 and 5.
const LINES: &[u8] = b"n2 v1 dD\nn3 v1 dD\nn5 v1 dD\n";
/// Nodes 2, 5 and 6, each visible.
const VISIBLE: &[u8] = b"n2 v1 dV x1 y1\nn5 v1 dV x1 y1\nn6 v1 dV x1 y1\n";
/// Nodes 1 and 4, in o5m.
const SETS: &[u8] = b"\xff\xe0\x04o5m2\x10\x03\x02\x01\x00\x10\x03\x06\x01\x00\xfe";

/// The objects that each of `count` shards writes of the files, and the number of clashes, if there are any; or the
/// shard's fault. A bar separates the shards.
fn shard_texts(alloc: Global, files: &[&&[u8]], count: u64) -> String {
    let mut texts = String::new(alloc);
    for number in 1..count.saturating_add(1) {
        let Some(shard) = Shard::new(number, count) else {
            return texts;
        };
        let run = ShardJob {
            shard,
            selection: Selection::All,
            format: Format::Opl,
            end: EndRule::Any,
        };
        let mut out = VecOut::new(alloc);
        let _ = texts.push_str("|");
        match run_shard(alloc, run, files, &mut out, &mut NoProgress) {
            Ok(counts) => {
                let written = out.into_vec();
                for line in str::from_utf8(written.as_slice()).unwrap_or("").lines() {
                    let _ = texts.push_str(line.split(' ').next().unwrap_or(""));
                }
                if counts.clashes > 0 {
                    let _ = write!(texts, ", {} clashes", counts.clashes);
                }
            }
            Err(fault) => {
                let _ = write!(texts, "{fault}");
            }
        }
    }
    texts
}

#[test]
fn shards_are_written(rt: HostRuntime) {
    for (one, other, count, text) in [
        (FIRST, SECOND, 2, "|n1n2|n3n4"),
        (FIRST, WAYS, 2, "|n1n2|w1w2"),
        (LONG, SHORT, 2, "|n1n2n3n4|n5n6n7"),
        (LONG, b"".as_slice(), 3, "|n1n2n3|n4n5|n6"),
        (b"".as_slice(), b"".as_slice(), 2, "||"),
        (FIRST, FIRST, 4, "|n1n2|||"),
        (LINES, SETS, 2, "|n1n2n3n4|n5"),
        (SETS, SETS, 2, "|n1n4|"),
        (
            LONG,
            VISIBLE,
            2,
            "|n1n2n2n3n4n5n5, 2 clashes|n6n6, 1 clashes",
        ),
    ] {
        assert_eq!(rt;
            shard_texts(rt.alloc(), &[&one, &other], count).as_str(),
            text
        );
        assert_eq!(rt;
            shard_texts(rt.alloc(), &[&other, &one], count).as_str(),
            text
        );
    }
}

#[test]
fn lines_within_a_shard_are_read(rt: HostRuntime) -> Result<(), Memory> {
    let mut file = Vec::new(rt.alloc());
    file.resize(5000, b'#')?;
    file.extend_from_slice(b"\n")?;
    file.extend_from_slice(LONG)?;
    let text = shard_texts(rt.alloc(), &[&file.as_slice()], 2);
    assert_eq!(rt; text.as_str(), "|n1n2n3|n4n5n6");
    Ok(())
}

#[test]
fn shards_refuse_unsorted_files(rt: HostRuntime) {
    let unsorted = b"n2 v1 dD\nn4 v1 dD\nn1 v1 dD\nn3 v1 dD\n".as_slice();
    assert_eq!(rt;
        shard_texts(rt.alloc(), &[&LONG, &unsorted], 1).as_str(),
        "|file 1, byte 18: Unsorted"
    );
}
