//! The check of a file: its format and its sizes.
ghost use Rattle.std.specs.Prelude.{◌≡◌, ◌⊎◌, ◌+◌, true, Some, IfOk, IfErr};
ghost use Rattle.osm_files.specs.Fault.{memory_fault};
ghost use Rattle.osm_files.specs.EndRule.{by_rule};
ghost use Rattle.osm_files.specs.Input.{GivesOne};
ghost use Rattle.osm_files.specs.Load.{StopsLoading, StopsOpening};
ghost use Rattle.osm_merge.specs.Union.{capped_count};
ghost use Rattle.osm_mirror.specs.run.Check.{Reports, IsChecked, IsCounted, checked_as, new_objects};
ghost use Rattle.osm_mirror.specs.run.Tally.{IsTalliedWith};

use crate::run::tally::Tally;
use osm_files::{EndRule, Fault, FileSource, Format, HistorySource, Input, Source, load_ended};
use osm_model::Version;
use std::alloc::Global;

/// The format and the sizes of a file. A number above 2^64 - 1 is given as 2^64 - 1.
#[derive(Clone, Copy, Debug, PartialEq, Eq)]
pub struct CheckReport {
    /// The file's format.
    pub format: Format,
    /// The number of the file's versions, each counted once.
    pub versions: u64,
    /// The number of objects of which the file holds versions.
    pub objects: u64,
    /// Whether the file is sorted: no version's key is below that of the version before it.
    pub sorted: bool,
}

/// A checked file.
#[derive(Clone, Copy, Debug, PartialEq, Eq)]
pub struct Checked {
    /// Its format and its sizes.
    pub report: CheckReport,
    /// The tally of its versions, each counted once.
    pub tally: Tally,
}

/// The sizes of a file. A number above 2^64 - 1 is given as 2^64 - 1.
#[derive(Clone, Copy, Debug, PartialEq, Eq)]
pub(crate) struct Sizes {
    /// The number of the file's versions, each counted once.
    pub(crate) versions: u64,
    /// The number of objects of which the file holds versions.
    pub(crate) objects: u64,
    /// The tally of the file's versions, each counted once.
    pub(crate) tally: Tally,
}

impl Sizes {
    /// The report on a file of these sizes, with its tally.
    fn checked(self, format: Format, sorted: bool) -> Checked
        ensures { result ≡ checked_as format sorted self }
    {
        let report = CheckReport {
            format,
            versions: self.versions,
            objects: self.objects,
            sorted,
        };
        Checked {
            report,
            tally: self.tally,
        }
    }
}

/// Checks a file whose versions may have any order. The call keeps all versions until it has counted them.
///
/// # Errors
///
/// The offset and the reason of the first faulty unit, `ReadFault` if the input fails, or `Memory`.
pub fn run_check<R: Input + Drop>(alloc: Global, input: R) -> Result<CheckReport, Fault>
    ensures report { IfOk result (λ report. GivesOne (R.can_give input) (λ c. Reports c report)) }
    ensures refused { IfErr result (λ fault. GivesOne (R.can_give input) (λ c. StopsLoading 0 c fault)) }
{
    Ok(run_tally(alloc, EndRule::Any, input)?.report)
}

/// Checks a sorted file in one pass over it, and keeps only the versions of one key. The report is the one that
/// [`run_check`] returns.
///
/// # Errors
///
/// The offset and the reason of the first unit that is faulty or whose version's key is below that of the version
/// before it; `ReadFault` if the input fails; or `Memory`.
pub fn run_check_sorted<R: Input + Drop>(alloc: Global, input: R) -> Result<CheckReport, Fault>
    ensures report { IfOk result (λ report. GivesOne (R.can_give input) (λ c. Reports c report)) }
    ensures sorted { IfOk result (λ report. report.sorted ≡ true) }
    ensures refused { IfErr result (λ fault. GivesOne (R.can_give input) (λ c. StopsOpening 0 c fault)) }
{
    Ok(run_tally_sorted(alloc, EndRule::Any, input)?.report)
}

/// Checks a file as [`run_check`] does, which has to end as `end` requires, and tallies its versions.
///
/// # Errors
///
/// Those of [`run_check`]; or `NoEnd` at the length of the file if the end is missing and no whole unit is faulty.
pub fn run_tally<R: Input + Drop>(alloc: Global, end: EndRule, input: R) -> Result<Checked, Fault>
    ensures checked { IfOk result (λ checked. GivesOne (R.can_give input) (λ c. IsChecked (by_rule end c) checked)) }
    ensures refused { IfErr result (λ fault.
        GivesOne (R.can_give input) (λ c. StopsLoading 0 (by_rule end c) fault)) }
{
    let loaded = load_ended(alloc, 0, end, input)?;
    let mut source = HistorySource::new(loaded.history);
    let sizes = count(&mut source)?;
    Ok(sizes.checked(loaded.format, loaded.sorted))
}

/// Checks a sorted file as [`run_check_sorted`] does, which has to end as `end` requires, and tallies its versions.
///
/// # Errors
///
/// Those of [`run_check_sorted`]; or `NoEnd` at the length of the file if the end is missing and no whole unit is
/// faulty or out of order.
pub fn run_tally_sorted<R: Input + Drop>(
    alloc: Global,
    end: EndRule,
    input: R,
) -> Result<Checked, Fault>
    ensures checked { IfOk result (λ checked. GivesOne (R.can_give input) (λ c. IsChecked (by_rule end c) checked)) }
    ensures sorted { IfOk result (λ checked. checked.report.sorted ≡ true) }
    ensures refused { IfErr result (λ fault.
        GivesOne (R.can_give input) (λ c. StopsOpening 0 (by_rule end c) fault)) }
{
    let (format, mut source) = FileSource::open(alloc, 0, end, input)?;
    let counted = count(&mut source);
    drop(source);
    let sizes = counted?;
    Ok(sizes.checked(format, true))
}

/// The sizes of what a source gives.
fn count<S: Source>(source: &mut S) -> Result<Sizes, Fault>
    ensures sizes { IfOk result (λ sizes. GivesOne (S.can_give source.old) (λ still. IsCounted still sizes)) }
    ensures refused { IfErr result (λ fault. GivesOne (S.can_give source.old) (λ still.
        (fault ≡ memory_fault) ⊎ (still.refusal ≡ Some fault))) }
{
    let mut sizes = Sizes {
        versions: 0,
        objects: 0,
        tally: Tally::new(),
    };
    let mut last: Option<Version> = None;
    'versions: loop {
        let Some(version) = source.next()? else {
            return Ok(sizes);
        };
        sizes = count_one(sizes, &last, &version);
        give_back(source, last.replace(version));
    }
}

/// Gives `version`, which isn't needed any more, back to the source, if there is one.
fn give_back<S: Source>(source: &mut S, version: Option<Version>)
    ensures { source.new ≡ source.old }
{
    if let Some(version) = version {
        source.reuse(version);
    }
}

/// The sizes with one version more: `version`, which comes after `last`.
fn count_one(sizes: Sizes, last: &Option<Version>, version: &Version) -> Sizes
    ensures versions { result.versions ≡ capped_count (sizes.versions + 1) }
    ensures objects { result.objects ≡ capped_count (sizes.objects + new_objects last.now version.now) }
    ensures tally { IsTalliedWith sizes.tally version.now result.tally }
{
    Sizes {
        versions: sizes.versions.saturating_add(1),
        objects: sizes.objects.saturating_add(begins(last, version)),
        tally: sizes.tally.with(version),
    }
}

/// 1 if `version` is the first version of its object, 0 if it has the object of `last`.
fn begins(last: &Option<Version>, version: &Version) -> u64
    ensures { result ≡ new_objects last.now version.now }
{
    match last {
        None => 1,
        Some(last) => u64::from(!last.object_cmp(version).is_eq()),
    }
}
