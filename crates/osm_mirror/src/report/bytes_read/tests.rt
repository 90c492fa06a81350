//! The texts of reports during a job.
use super::BytesRead;

#[test]
fn a_report_has_megabytes_and_percent(rt: HostRuntime) {
    for (bytes, size, wanted) in [
        (300, Some(1000), "30 %, 0 of 0 MB"),
        (2_999_999, Some(12_000_000), "24 %, 2 of 12 MB"),
        (0, Some(0), "0 %, 0 of 0 MB"),
        (3_000_000, None, "3 MB"),
    ] {
        let text = format!(in rt.alloc(); "{}", BytesRead { bytes, size });
        let text = text.unwrap_or(String::new(rt.alloc()));
        assert_eq!(rt; text.as_str(), wanted);
    }
}
