//! The streaming merge, which writes a selection of the union of its sources, and selections of a history. The merge
//! plays a tournament over the next versions of its sources.
#![tactic(auto)]

mod chosen;
mod clash_tally;
mod compare;
mod heads;
pub mod laws;
mod merge;
mod newest;
mod pending;
mod progress;
mod repeats;
mod selection;
mod span;
mod taking;
mod tournament;
mod tree;
mod within;

pub use chosen::{at, between, snapshot, visible};
pub use merge::{Counts, merge_into, merge_selected};
pub use newest::into_snapshot;
pub use progress::{NoProgress, Progress, Relation};
pub use selection::Selection;
pub use span::Span;
pub use taking::{absorb, absorb_newest};
pub use within::{Outside, Within};

#[cfg(test)]
mod rows;
