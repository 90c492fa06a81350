//! Whole files of OpenStreetMap histories in OPL, o5m and o5c: their contents, and the devices through which they are
//! read and written.
#![tactic(auto)]

mod buffered;
mod cut_back;
mod end_rule;
mod extent;
mod fault;
mod file_input;
mod file_runs;
mod format;
mod group;
mod history_source;
mod input;
mod key_order;
pub mod laws;
mod line_key;
mod lines;
mod load;
mod o5;
mod output;
mod placed;
mod read_at;
mod read_buffer;
mod reading;
mod reason;
mod recorded;
mod set_key;
mod set_order;
mod sink;
mod sorted_run;
mod source;
mod split_file;
mod unit;
mod unknown_line;
mod write;

pub use buffered::Buffered;
pub use cut_back::{CutBack, CutBackOutput};
pub use end_rule::{EndRule, lacks_end_of_file};
pub use extent::{Extent, FramedExtent};
pub use fault::{Fault, LENGTH_LIMIT};
pub use file_input::FileInput;
pub use file_runs::find_runs;
pub use format::{FORMAT_NAMES, Format};
pub use history_source::HistorySource;
pub use input::{Broken, FromRead, Input, SliceIn};
pub use lines::{first_object, line_start};
pub use load::{Loaded, find_fault, load_any, load_ended};
pub use o5::O5_START;
pub use output::{Output, ToWrite, VecOut};
pub use read_at::{FromFile, ReadAt};
pub use reason::Reason;
pub use recorded::Recorded;
pub use sink::{Sink, write_history};
pub use sorted_run::{BytesAtSplit, SortedRun};
pub use source::{FileSource, Source};
pub use split_file::SplitFile;
pub use write::write_all;

#[cfg(test)]
mod devices;
#[cfg(test)]
mod tests;
#[cfg(test)]
mod texts;
