//! The line of a fault.
ghost use Rattle.std.specs.Prelude.{◌≡◌, ◌++◌, map, codes, decimal, slice_index_or, string_bytes, IfOk};
ghost use Rattle.osm_files.specs.Reason.{reason_name};
ghost use Rattle.osm_mirror.specs.report.FaultLine.{fault_line};

use itoa::Buffer;
use o5_codec::O5Reason;
use opl_line::OplReason;
use osm_files::{Fault, Reason};
use osm_model::Memory;
use std::alloc::Global;

/// The line of a fault, without its end: `NAME: PLACE: REASON`. The name is the one in `inputs` at the fault's number,
/// or else `out`, the name of the output. The line of [`Reason::Memory`] is `out of memory`.
///
/// # Errors
///
/// Only out of memory.
pub fn fault_text(
    alloc: Global,
    fault: &Fault,
    inputs: &[&str],
    out: &str,
) -> Result<String, Memory>
    ensures { IfOk result (λ line. string_bytes line ≡ fault_line fault.now
        (map (λ name. name.now) inputs.now) out.now) }
{
    match fault.reason {
        Reason::Memory | Reason::Opl(OplReason::Memory) | Reason::O5(O5Reason::Memory) => {
            Ok(String::from_str(alloc, "out of memory")?)
        }
        reason => reason_text(
            alloc,
            name_at(inputs, fault.input, out),
            fault.place,
            reason,
        ),
    }
}

/// The name at `index`, or `other` if the names end before it.
fn name_at<'a>(names: &[&'a str], index: usize, other: &'a str) -> &'a str
    ensures { result.now ≡ slice_index_or (map (λ name. name.now) names.now) index other.now }
{
    match names.get(index) {
        Some(name) => name,
        None => other,
    }
}

/// The line of `reason` at `offset` in the file with the name `name`.
fn reason_text(alloc: Global, name: &str, offset: u64, reason: Reason) -> Result<String, Memory>
    ensures { IfOk result (λ line.
        string_bytes line ≡ name.now ++ codes ": " ++ decimal offset ++ codes ": " ++ reason_name reason) }
{
    let mut line = String::from_str(alloc, name)?;
    line.push_str(": ")?;
    line.push_str(Buffer::new().format(offset))?;
    line.push_str(": ")?;
    line.push_str(reason.name())?;
    Ok(line)
}

#[cfg(test)]
mod tests;
