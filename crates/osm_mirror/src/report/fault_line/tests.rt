//! The lines of faults.
use super::fault_text;
use o5_codec::O5Reason;
use opl_line::OplReason;
use osm_files::{Fault, Reason};
use std::alloc::Global;

/// Whether the fault of a job with two inputs has the line `line`.
fn is_line(alloc: Global, fault: Fault, line: &str) -> bool {
    match fault_text(alloc, &fault, &["a.opl", "b.o5m"], "o.opl") {
        Ok(text) => text.as_str() == line,
        Err(_) => false,
    }
}

#[test]
fn inputs_and_the_output_are_named(rt: HostRuntime) {
    for (fault, line) in [
        (
            Fault::at(0, 28, Reason::Opl(OplReason::NoLocation)),
            "a.opl: 28: NoLocation",
        ),
        (
            Fault::at(1, 7, Reason::O5(O5Reason::BadReference)),
            "b.o5m: 7: BadReference",
        ),
        (Fault::at(2, 0, Reason::WriteFault), "o.opl: 0: WriteFault"),
        (Fault::too_long(1), "b.o5m: 4611686018427387904: TooLong"),
    ] {
        assert!(rt; is_line(rt.alloc(), fault, line));
    }
}

#[test]
fn out_of_memory_names_no_file(rt: HostRuntime) {
    assert!(rt; is_line(rt.alloc(), Fault::memory(), "out of memory"));
    for reason in [Reason::Opl(OplReason::Memory), Reason::O5(O5Reason::Memory)] {
        let fault = Fault {
            input: 1,
            place: 3,
            reason,
        };
        assert!(rt; is_line(rt.alloc(), fault, "out of memory"));
    }
}
