//! Replies as they are printed.
use super::{Replies, Reply};
use osm_files::{Fault, Reason};

#[test]
fn replies_have_a_text(rt: HostRuntime) {
    for (reply, text) in [
        (Reply::Taken, "Taken"),
        (
            Reply::Refused(Fault::at(0, 40, Reason::NoEnd)),
            "Refused 40 NoEnd",
        ),
        (Reply::Refused(Fault::memory()), "Refused out of memory"),
    ] {
        assert!(rt; format!(in rt.alloc(); "{reply}").is_ok_and(|found| found.as_str() == text));
    }
}

#[test]
fn replies_have_numbers(rt: HostRuntime) {
    let replies = [
        Reply::Taken,
        Reply::Refused(Fault::at(0, 40, Reason::NoEnd)),
    ];
    let shown = format!(in rt.alloc(); "{}", Replies(&replies));
    assert!(rt; shown.is_ok_and(|text| text.as_str() == "1 Taken\n2 Refused 40 NoEnd\n"));
}
