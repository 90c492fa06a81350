//! The numbers of shards.
use super::Shard;

#[test]
fn shards_have_numbers(rt: HostRuntime) {
    for (number, count, is) in [
        (1, 1, true),
        (9999, 9999, true),
        (0, 1, false),
        (2, 1, false),
        (1, 10000, false),
    ] {
        assert_eq!(rt; Shard::new(number, count).is_some(), is);
    }
}

#[test]
fn shards_are_read(rt: HostRuntime) {
    for (text, shard) in [
        ("3/8", Some((3, 8))),
        ("03/08", Some((3, 8))),
        ("9999/9999", Some((9999, 9999))),
        ("+3/8", None),
        ("3/+8", None),
        ("3", None),
        ("3/", None),
        ("/8", None),
        ("3/8/9", None),
        ("9/8", None),
        ("0/8", None),
        ("1/10000", None),
    ] {
        let found = Shard::read(text).map(|shard| (shard.number, shard.count));
        assert_eq!(rt; found, shard);
    }
}
