//! Whole files, loaded in any order of their versions.
ghost use Rattle.std.specs.Prelude.{◌≡◌, ◌∷◌, [], ◌++◌, ◌&&◌, not, IfOk, IfErr, OnOk};
ghost use Rattle.osm_model.specs.Order.{version_cmp};
ghost use Rattle.osm_model.specs.Sets.{from_list};
ghost use Rattle.osm_files.specs.Fault.{memory_fault};
ghost use Rattle.osm_files.specs.Input.{GivesOne};
ghost use Rattle.osm_files.specs.EndRule.{by_rule, by_test};
ghost use Rattle.osm_files.specs.Load.{IsAcceptedWhole, IsRead, Loads, StopsLoading};
ghost use Rattle.osm_files.specs.Position.{at_start_with};
ghost use Rattle.osm_files.specs.Verdict.{is_below_last};

use crate::end_rule::EndRule;
use crate::fault::Fault;
use crate::format::Format;
use crate::input::Input;
use crate::reading::Reading;
use osm_model::{History, Version};
use std::alloc::Global;

/// The contents of a file.
#[derive(Drop)]
pub struct Loaded {
    /// The set of the file's versions.
    pub history: History,
    /// The format, which the first bytes of the file show.
    pub format: Format,
    /// Whether it is sorted: no version's key is below that of the version before it.
    pub sorted: bool,
}

/// Loads the file that `reader` gives, in any format and with its versions in any order. `input` is the file's number.
///
/// # Errors
///
/// The offset and the reason of the first faulty unit; `ReadFault` if the input fails and no whole unit before is
/// faulty; or `Memory`.
pub fn load_any<R: Input + Drop>(alloc: Global, input: usize, reader: R) -> Result<Loaded, Fault>
    ensures loaded { IfOk result (λ loaded. GivesOne (R.can_give reader) (λ c. Loads c loaded)) }
    ensures refused { IfErr result (λ fault. GivesOne (R.can_give reader) (λ c. StopsLoading input c fault)) }
{
    load_ended(alloc, input, EndRule::Any, reader)
}

/// Loads a file as [`load_any`] does, which has to end as `end` requires.
///
/// # Errors
///
/// Those of [`load_any`]; or `NoEnd` at the length of the file if the end is missing and no whole unit is faulty.
pub fn load_ended<R: Input + Drop>(
    alloc: Global,
    input: usize,
    end: EndRule,
    reader: R,
) -> Result<Loaded, Fault>
    ensures loaded { IfOk result (λ loaded. GivesOne (R.can_give reader) (λ c. Loads (by_rule end c) loaded)) }
    ensures refused { IfErr result (λ fault.
        GivesOne (R.can_give reader) (λ c. StopsLoading input (by_rule end c) fault)) }
{
    let mut reading = Reading::new(alloc, input, end, reader);
    let mut versions: Vec<Version> = Vec::new(alloc);
    let read = read_versions(&mut reading, &mut versions);
    drop(reading);
    match read {
        Ok((format, sorted)) => gathered(versions, format, sorted),
        Err(fault) => Err(fault),
    }
}

/// Reads all versions of a file, and returns its format and whether it is sorted.
fn read_versions<R: Input>(
    reading: &mut Reading<R>,
    versions: &mut Vec<Version>,
) -> Result<(Format, bool), Fault>
    requires begins { reading.old ≡ at_start_with reading.old.end reading.old.input reading.old.rest }
    requires empty { versions.old.items ≡ [] }
    ensures read { IfOk result (λ read. GivesOne (R.can_give reading.old.rest) (λ c.
        IsRead reading.old.input (by_test reading.old.end c) versions.new.items read.0 read.1)) }
    ensures refused { IfErr result (λ fault. GivesOne (R.can_give reading.old.rest) (λ c.
        StopsLoading reading.old.input (by_test reading.old.end c) fault)) }
{
    let format = reading.format()?;
    let mut sorted = true;
    'units: loop {
        let Some(unit) = reading.next()? else {
            return Ok((format, sorted));
        };
        sorted = add(versions, sorted, unit.version)?;
    }
}

/// Reads the file that `reader` gives, in any format and with its versions in any order, up to its first fault. No
/// version is kept. The file has to end as `end` requires. `input` is the file's number.
///
/// # Errors
///
/// Those of [`load_ended`].
pub fn find_fault<R: Input + Drop>(
    alloc: Global,
    input: usize,
    end: EndRule,
    reader: R,
) -> Result<(), Fault>
    ensures whole { OnOk result (GivesOne (R.can_give reader) (λ c. IsAcceptedWhole input (by_rule end c))) }
    ensures refused { IfErr result (λ fault.
        GivesOne (R.can_give reader) (λ c. StopsLoading input (by_rule end c) fault)) }
{
    let mut reading = Reading::new(alloc, input, end, reader);
    let read = read_units(&mut reading);
    drop(reading);
    read
}

/// Reads all units of a file.
fn read_units<R: Input>(reading: &mut Reading<R>) -> Result<(), Fault>
    requires begins { reading.old ≡ at_start_with reading.old.end reading.old.input reading.old.rest }
    ensures whole { OnOk result (GivesOne (R.can_give reading.old.rest) (λ c.
        IsAcceptedWhole reading.old.input (by_test reading.old.end c))) }
    ensures refused { IfErr result (λ fault. GivesOne (R.can_give reading.old.rest) (λ c.
        StopsLoading reading.old.input (by_test reading.old.end c) fault)) }
{
    'units: loop {
        let Some(unit) = reading.next()? else {
            return Ok(());
        };
        drop(unit);
    }
}

/// Appends a version, and returns whether the versions are still sorted.
fn add(versions: &mut Vec<Version>, sorted: bool, version: Version) -> Result<bool, Fault>
    ensures added { OnOk result (versions.new.items ≡ versions.old.items ++ version ∷ []) }
    ensures sorted { IfOk result (λ still. still ≡ (sorted && not (is_below_last version versions.old.items))) }
    ensures memory { IfErr result (λ fault. fault ≡ memory_fault) }
{
    let rises = !is_below_last(&version, versions);
    match versions.push(version) {
        Ok(()) => Ok(sorted && rises),
        Err(refused) => Err(Fault::from(refused)),
    }
}

/// Whether the key of `version` is below that of the last of `versions`.
fn is_below_last(version: &Version, versions: &[Version]) -> bool
    ensures { result ≡ is_below_last version.now versions.now }
{
    match versions.last() {
        None => false,
        Some(last) => version.key_cmp(last).is_lt(),
    }
}

/// The contents of a file with these versions.
fn gathered(versions: Vec<Version>, format: Format, sorted: bool) -> Result<Loaded, Fault>
    ensures loaded { IfOk result (λ loaded.
        loaded ≡ record { history = from_list {R = version_cmp} versions.items; format = format; sorted = sorted }) }
    ensures memory { IfErr result (λ fault. fault ≡ memory_fault) }
{
    let history = History::from_versions(versions)?;
    Ok(Loaded {
        history,
        format,
        sorted,
    })
}

#[cfg(test)]
mod tests;
