//! Checks of files that are read at offsets.
use super::run_tally_file;
use crate::run::files_job::Order;
use osm_files::{Broken, EndRule, Fault, LENGTH_LIMIT, ReadAt, Reason};
use std::alloc::Global;

/// A file that is too long, and can't be read.
struct TooLong;

impl ReadAt for TooLong {
    ghost use Rattle.std.specs.Prelude.{None};

    ghost bytes = { λ _. None };

    ghost fails = { λ _. Unit {0} };

    fn size(&self) -> Result<u64, Broken> {
        Ok(LENGTH_LIMIT)
    }

    fn read_at(&self, _buffer: &mut [u8], _offset: u64) -> Result<usize, Broken> {
        Err(Broken)
    }
}

/// The number of versions of a file, whether it is sorted, and its fault.
fn checked(alloc: Global, order: Order, file: &[u8]) -> (u64, bool, Option<Fault>) {
    match run_tally_file(alloc, order, EndRule::LineFeed, &file) {
        Ok(checked) => (checked.report.versions, checked.report.sorted, None),
        Err(fault) => (0, false, Some(fault)),
    }
}

#[test]
fn a_file_is_checked_in_both_orders(rt: HostRuntime) {
    let refused = |place, reason| (0, false, Some(Fault::at(0, place, reason)));
    let rising: &[u8] = b"n1 v1 x1 y1\nn2 v1 x1 y1\n";
    let falling: &[u8] = b"n2 v1 x1 y1\nn1 v1 x1 y1\n";
    for (order, file, outcome) in [
        (Order::Any, rising, (2, true, None)),
        (Order::Sorted, rising, (2, true, None)),
        (Order::Any, falling, (2, false, None)),
        (Order::Sorted, falling, refused(12, Reason::Unsorted)),
        (Order::Any, &falling[..23], refused(23, Reason::NoEnd)),
        (Order::Sorted, &rising[..23], refused(23, Reason::NoEnd)),
    ] {
        assert!(rt; checked(rt.alloc(), order, file) == outcome);
    }
}

#[test]
fn a_file_that_is_too_long_is_not_read(rt: HostRuntime) {
    let outcome = run_tally_file(rt.alloc(), Order::Any, EndRule::Any, &TooLong);
    assert!(rt; outcome.err() == Some(Fault::too_long(0)));
}
