//! The reasons that the program prints are explained.
use super::{Explanation, REASONS};
use crate::PlanReason;
use o5_codec::O5Reason;
use opl_line::OplReason;
use osm_files::Reason;

/// The reasons for which files and devices are refused, but for `Memory` and `Failed`, which have lines of their own.
const REJECTIONS: [Reason; 25] = [
    Reason::BadHeader,
    Reason::Unsorted,
    Reason::NoEnd,
    Reason::AfterEnd,
    Reason::TooLong,
    Reason::ReadFault,
    Reason::WriteFault,
    Reason::O5(O5Reason::BadReference),
    Reason::O5(O5Reason::BadSection),
    Reason::O5(O5Reason::BadMemberType),
    Reason::O5(O5Reason::MixedSegment),
    Reason::O5(O5Reason::Truncated),
    Reason::Opl(OplReason::NotUtf8),
    Reason::Opl(OplReason::UnknownKind),
    Reason::Opl(OplReason::UnknownField),
    Reason::Opl(OplReason::RepeatedField),
    Reason::Opl(OplReason::BadNumber),
    Reason::Opl(OplReason::OutOfRange),
    Reason::Opl(OplReason::BadTime),
    Reason::Opl(OplReason::BadCoordinate),
    Reason::Opl(OplReason::BadText),
    Reason::Opl(OplReason::BadList),
    Reason::Opl(OplReason::NoVersion),
    Reason::Opl(OplReason::NoTime),
    Reason::Opl(OplReason::NoLocation),
];

#[test]
fn each_reason_is_explained_once(rt: HostRuntime) {
    for reason in REJECTIONS {
        let name = reason.name();
        assert!(rt; Explanation::named(name).is_some_and(|found| found.name() == name));
    }
    for name in ["noend", "NOEND", "NoEnd"] {
        assert!(rt; Explanation::named(name).is_some_and(|found| found.name() == "NoEnd"));
    }
    for reason in [
        PlanReason::NotUtf8,
        PlanReason::BadWord,
        PlanReason::BadOrder,
        PlanReason::NoMirror,
    ] {
        assert!(rt; Explanation::named(reason.name()).is_some());
    }
    for name in ["Memory", "Failed", "NoEndX", ""] {
        assert!(rt; Explanation::named(name).is_none());
    }
    for row in REASONS {
        let name = row.name();
        assert_eq!(rt;
            REASONS.iter().filter(|other| other.name() == name).count(),
            1
        );
    }
}
