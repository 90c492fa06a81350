//! Looks at files in sequence, at sorted ones and at small ones.
use super::{LEAST_SIZE, descends};
use std::alloc::{AllocError, Global};

/// The bytes of a line.
const LINE: usize = 64;

/// Appends the line of the node with this id, filled with zeros and a long name of its user.
fn push_node(file: &mut Vec<u8>, id: u64) -> Result<(), AllocError> {
    let mut line = [b'x'; LINE];
    let front = b"n0000000000 v1 dD c1 t2020-01-01T00:00:00Z i1 u";
    line[..front.len()].copy_from_slice(front);
    let mut rest = id;
    for index in 0..10_usize {
        line[10 - index] = b'0' + (rest % 10) as u8;
        rest /= 10;
    }
    line[LINE - 1] = b'\n';
    file.extend_from_slice(&line)
}

/// A file of `count` nodes with ascending ids, and then of as many again if `twice` is set.
fn nodes(alloc: Global, count: u64, twice: bool) -> Result<Vec<u8>, AllocError> {
    let mut file = Vec::new(alloc);
    for id in 0..count {
        push_node(&mut file, id + 1)?;
    }
    if twice {
        for id in 0..count {
            push_node(&mut file, id + 1)?;
        }
    }
    Ok(file)
}

/// Whether such a file is seen to descend; `None` if memory ran out.
fn is_seen_to_descend(alloc: Global, count: u64, twice: bool) -> Option<bool> {
    match nodes(alloc, count, twice) {
        Ok(file) => Some(descends(alloc, &file.as_slice())),
        Err(AllocError) => None,
    }
}

#[test]
fn files_in_sequence(rt: HostRuntime) {
    let many = LEAST_SIZE / LINE as u64;
    for (count, twice, expected) in [
        (many, false, false),
        (many, true, true),
        (many / 4, true, false),
    ] {
        assert_eq!(rt;
            is_seen_to_descend(rt.alloc(), count, twice),
            Some(expected)
        );
    }
}
