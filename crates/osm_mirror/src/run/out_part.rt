//! The names of files that a command makes: their folders, and OUT.part, as which OUT is written.
use std::alloc::{AllocError, Global};

/// The ending of the name of OUT.part.
const ENDING: &str = ".part";

/// Whether `name` is the name of the OUT.part of `output`.
pub fn is_part(name: &str, output: &str) -> bool {
    name.strip_suffix(ENDING) == Some(output)
}

/// The name of the OUT.part of `output`.
pub fn part_name(alloc: Global, output: &str) -> Result<String, AllocError> {
    format!(in alloc; "{output}{ENDING}")
}

/// The name of the folder of the file `name`.
pub fn folder_of(name: &str) -> &str {
    match name.rsplit_once('/') {
        Some(("", _)) => "/",
        Some((folder, _)) => folder,
        None => ".",
    }
}

/// The last part of the name `name`, after its folder.
pub fn last_of(name: &str) -> &str {
    name.rsplit_once('/').map_or(name, |(_, last)| last)
}

/// What a name of a file to be made names: its folder, and the last part of the name. A link of that name isn't
/// followed, since the new file replaces it. `I` is the identity of a folder.
#[derive(Clone, Copy, Debug, PartialEq, Eq)]
pub struct Place<'a, I> {
    /// The identity of the folder, or its name if there is no such folder.
    folder: Result<I, &'a str>,
    /// The last part of the name.
    last: &'a str,
}

impl<'a, I: PartialEq> Place<'a, I> {
    /// What `name` names, in the folder with the identity `folder`, if there is one.
    pub fn new(name: &'a str, folder: Option<I>) -> Place<'a, I> {
        Place {
            folder: folder.ok_or(folder_of(name)),
            last: last_of(name),
        }
    }

    /// Whether this is the OUT.part of `output`.
    pub fn is_part_of(&self, output: &Place<'a, I>) -> bool {
        self.folder == output.folder && is_part(self.last, output.last)
    }
}

#[cfg(test)]
mod tests;
