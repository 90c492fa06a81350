//! One proved caller of each library crate. The CALLING.md of the crate shows its caller.
#![tactic(auto)]

mod content;
mod files;
mod history;
mod jobs;
mod line;
mod reads;
mod selected;
mod whole;

pub use content::first_version;
pub use files::to_o5m;
pub use history::with_version;
pub use jobs::{map_of_reads, part_of_map};
pub use line::canonical;
pub use reads::one_file_of_reads;
pub use selected::visible_map;
pub use whole::one_file;

#[cfg(test)]
mod tests;
