//! Lists of names.
use super::{NamesFault, read_names};
use std::alloc::Global;

/// The number of names of a list and its first name, or the fault of the list.
fn names_of<'a>(
    alloc: Global,
    list: &'a str,
    must_end: bool,
) -> Result<(usize, &'a str), NamesFault> {
    let names = read_names(alloc, list, must_end)?;
    Ok((names.len(), names.first().map_or("", |name| *name)))
}

#[test]
fn names_end_with_nul(rt: HostRuntime) {
    for (list, must_end, names) in [
        ("a.opl\0b.opl\0", false, Ok((2, "a.opl"))),
        ("a.opl\0b.opl\0", true, Ok((2, "a.opl"))),
        ("a.opl\0b.opl", false, Ok((2, "a.opl"))),
        ("a.opl\0b.opl", true, Err(NamesFault::NotEnded)),
        ("a\nb\0", true, Ok((1, "a\nb"))),
        ("a\nb\n", true, Err(NamesFault::NotEnded)),
        ("", true, Err(NamesFault::NoNames)),
        ("\0", false, Err(NamesFault::EmptyName { number: 1 })),
        ("a\0\0b\0", false, Err(NamesFault::EmptyName { number: 2 })),
    ] {
        assert!(rt; names_of(rt.alloc(), list, must_end) == names);
    }
}
