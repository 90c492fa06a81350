//! A history as a source.
use super::HistorySource;
use crate::input::SliceIn;
use crate::load::load_any;
use crate::tests::UNSORTED;
use crate::texts::{push_fault, push_given};
use std::alloc::Global;

/// The versions that the history of a file gives as a source.
fn held_text(alloc: Global, file: &[u8]) -> String {
    let mut text = String::new(alloc);
    match load_any(alloc, 0, SliceIn::new(file)) {
        Err(fault) => push_fault(&mut text, fault),
        Ok(loaded) => push_given(alloc, &mut text, &mut HistorySource::new(loaded.history)),
    }
    text
}

#[test]
fn loaded_file_is_given_in_order(rt: HostRuntime) {
    assert_eq!(rt;
        held_text(rt.alloc(), UNSORTED).as_str(),
        "n1 v1 dV c0 t i0 u T x1 y1\nn2 v1 dV c0 t i0 u T x1 y1\nend\nend\nend\n"
    );
}
