//! The jobs over whole files of OpenStreetMap histories, and mirrors that take and pass such files.
#![tactic(auto)]

mod digits;
mod fleet;
pub mod laws;
mod report;
mod run;

pub use fleet::{
    Event, Fleet, Keep, Mirror, MirrorEvent, Plan, PlanFault, PlanReason, PlanRun, PlanWrite,
    Replies, Reply, Step, Taken, events_of, files_at, line_of_number, line_of_part, read_plan,
};
pub use osm_merge::{Counts, NoProgress, Outside, Progress, Relation, Selection, Span};
pub use osm_model::{Kind, Memory, Object, Version};
pub use report::{
    BytesRead, CUT, CheckedFile, CheckedJson, Content, Conversion, Escaped, EscapedBytes,
    EscapedOut, Explanation, FaultyLine, JobSummary, JobTally, JsonText, Meter, OtherOutput,
    Quoted, REASONS, ReasonList, RefusedJson, content_of, fault_text, is_report_due,
};
pub use run::{
    CheckReport, Checked, Command, FileRequest, FilesJob, InputFile, InputsJob, JobFile, JobInput,
    Metered, NamesFault, Order, Place, ReadAs, RequestFault, Shard, ShardJob, Tally, Watch,
    cut_offset, folder_of, is_opl, is_part, last_of, part_name, read_moment, read_names,
    read_retried, run_apply, run_check, run_check_sorted, run_files, run_inputs, run_merge,
    run_period_filter, run_selected, run_shard, run_sort, run_tally, run_tally_file,
    run_tally_sorted, run_time_filter, write_retried,
};

#[cfg(test)]
mod tests;
