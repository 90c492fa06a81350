//! The files that can be sharded.
use super::input::{OpenInput, refuse_changed, size_of};
use super::target::STANDARD;
use super::{Host, Refusal};
use osm_files::ReadAt;
use osm_mirror::{Watch, is_opl};
use std::fs;

/// Refuses names of files that aren't regular. So no pipe is opened, which would wait.
pub(super) fn refuse_irregular<'a>(rt: &impl Host, names: &[&'a str]) -> Result<(), Refusal<'a>> {
    for name in names {
        let is_regular = *name != STANDARD
            && match fs::metadata(rt, *name) {
                Ok(metadata) => metadata.is_file(),
                Err(error) => return Err(Refusal::unread(*name, &error)),
            };
        if !is_regular {
            return Err(Refusal::NotRegular { name: *name });
        }
    }
    Ok(())
}

/// Whether o5 files are the larger part of open files. Files that can't be sharded are refused: at least one has to be
/// OPL.
pub(super) fn has_more_o5<'a, M: Watch>(
    rt: &impl Host,
    inputs: &[OpenInput<'a, M>],
) -> Result<bool, Refusal<'a>> {
    let (mut opl, mut o5) = (None, 0_u64);
    for input in inputs {
        match size_if_opl(rt, input)? {
            (size, true) => opl = Some(size.saturating_add(opl.unwrap_or(0))),
            (size, false) => o5 = o5.saturating_add(size),
        }
    }
    let opl = opl.ok_or(Refusal::ShardWithoutOpl)?;
    Ok(o5 > opl)
}

/// The size of an open file, and whether it is OPL. The system has to know the size: a file of `/proc` has bytes,
/// though its size is 0.
fn size_if_opl<'a, M: Watch>(
    rt: &impl Host,
    input: &OpenInput<'a, M>,
) -> Result<(u64, bool), Refusal<'a>> {
    let (name, code) = (input.note.name, None);
    let (Some(file), Some(size)) = (&input.regular, size_of(input)) else {
        return Err(Refusal::CannotRead { name, code });
    };
    match (file.read_at(&mut [0u8; 1], 0), is_opl(file)) {
        (Ok(count), Ok(is_opl)) if count == 0 || size > 0 => Ok((size, is_opl)),
        (Ok(_), Ok(_)) => {
            refuse_changed(rt, input)?;
            Err(Refusal::NotRegular { name })
        }
        _ => Err(Refusal::CannotRead { name, code }),
    }
}
