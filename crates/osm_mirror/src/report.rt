//! The texts about files and jobs: reasons and what they mean, what a check found, what a job did, and names as they
//! are printed.

mod bytes_read;
mod checked;
mod explanation;
mod fault_line;
mod faulty_line;
mod foreign;
mod job_summary;
mod meter;
mod shown;

pub use bytes_read::{BytesRead, is_report_due};
pub use checked::{CheckedFile, CheckedJson, RefusedJson};
pub use explanation::{Explanation, REASONS, ReasonList};
pub use fault_line::fault_text;
pub use faulty_line::FaultyLine;
pub use foreign::{CUT, Content, Conversion, OtherOutput, content_of};
pub use job_summary::{JobSummary, JobTally};
pub use meter::Meter;
pub use shown::{Escaped, EscapedBytes, EscapedOut, JsonText, Quoted};
