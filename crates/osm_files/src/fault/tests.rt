//! The names of formats and reasons, and the text of a fault.
use super::Fault;
use crate::format::Format;
use crate::reason::Reason;
use crate::texts::push_fault;
use o5_codec::O5Reason;
use opl_line::OplReason;
use std::alloc::{AllocError, Global};

/// Whether the name of `format` is `name`, and `name` names `format`.
fn is_named(format: Format, name: &str) -> bool {
    format.name() == name && Format::named(name) == Some(format)
}

#[test]
fn formats_have_their_names(rt: HostRuntime) {
    assert!(rt; is_named(Format::Opl, "opl"));
    assert!(rt; is_named(Format::O5m, "o5m"));
    assert!(rt; is_named(Format::O5c, "o5c"));
    assert!(rt; Format::named("OPL").is_none());
}

#[test]
fn reasons_have_their_names(rt: HostRuntime) {
    assert_eq!(rt; Reason::Unsorted.name(), "Unsorted");
    assert_eq!(rt; Reason::O5(O5Reason::MixedSegment).name(), "MixedSegment");
}

/// The line of a fault of a line.
fn line_of_fault(alloc: Global) -> String {
    let mut text = String::new(alloc);
    let fault = Fault {
        input: 1,
        place: 4,
        reason: Reason::Opl(OplReason::NoLocation),
    };
    push_fault(&mut text, fault);
    text
}

#[test]
fn fault_is_said_with_its_place(rt: HostRuntime) {
    assert_eq!(rt;
        line_of_fault(rt.alloc()).as_str(),
        "file 1, byte 4: NoLocation\n"
    );
}

#[test]
fn out_of_memory_is_a_fault_without_a_place(rt: HostRuntime) {
    assert!(rt; Fault::from(AllocError) == Fault::memory());
}

#[test]
fn inner_out_of_memory_is_said_outside(rt: HostRuntime) {
    for (reason, outer) in [
        (Reason::from(OplReason::Memory), Reason::Memory),
        (
            Reason::from(OplReason::BadText),
            Reason::Opl(OplReason::BadText),
        ),
        (Reason::from(O5Reason::Memory), Reason::Memory),
        (Reason::from(O5Reason::Failed), Reason::Failed),
        (
            Reason::from(O5Reason::BadText),
            Reason::O5(O5Reason::BadText),
        ),
    ] {
        assert!(rt; reason == outer);
    }
}
