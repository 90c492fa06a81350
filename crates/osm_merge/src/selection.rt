//! Selections of the versions of a history that are written.
ghost use Rattle.std.specs.Prelude.{◌≡◌, Some, option_copied};
ghost use Rattle.osm_merge.specs.Selected.{moment, is_visible, is_by, lasts};
ghost use Rattle.osm_merge.specs.Pass.{passes, stays, keeps, puts_at_once, same_object};

use osm_model::Version;

/// A selection of the versions of a history that are written. A version without a time counts as one of the time 0.
#[derive(Clone, Copy, Debug, PartialEq, Eq)]
pub enum Selection {
    /// All versions: the whole history.
    All,
    /// The versions that aren't deletions.
    Visible,
    /// The newest version of each object, deletions too: the snapshot.
    Newest,
    /// The newest version of each object, if it isn't a deletion: the map after all changes.
    NewestVisible,
    /// The newest one of each object among the versions up to this moment, deletions too.
    State(u32),
    /// The newest one of each object among the versions up to this moment, if it isn't a deletion: the map at that
    /// moment.
    StateVisible(u32),
    /// The versions, deletions too, that came before `to` and were current at `from` or later: the history of a period.
    Between {
        /// The moment at which the period begins.
        from: u32,
        /// The moment after its end.
        to: u32,
    },
}

/// Whether all versions are selected, so that each is put as soon as it comes.
#[inline(always)]
pub(crate) fn puts_at_once(selection: Selection) -> bool
    ensures { result ≡ puts_at_once selection }
{
    match selection {
        Selection::All => true,
        Selection::Visible => false,
        Selection::Newest => false,
        Selection::NewestVisible => false,
        Selection::State(_) => false,
        Selection::StateVisible(_) => false,
        Selection::Between { .. } => false,
    }
}

/// Whether a version passes. A version that doesn't pass is treated as if the history didn't have it.
#[inline(always)]
pub(crate) fn passes(selection: Selection, version: &Version) -> bool
    ensures { result ≡ passes selection version.now }
{
    match selection {
        Selection::All => true,
        Selection::Visible => is_visible(version),
        Selection::Newest => true,
        Selection::NewestVisible => true,
        Selection::State(time) => is_by(time, version),
        Selection::StateVisible(time) => is_by(time, version),
        Selection::Between { .. } => true,
    }
}

/// Whether a version stays, if `next` comes after it in the order.
pub(crate) fn keeps(selection: Selection, version: &Version, next: &Version) -> bool
    ensures { result ≡ keeps selection version.now (Some next.now) }
{
    if is_same_object(version, next) {
        stays(selection, version, Some(moment(next)))
    } else {
        stays(selection, version, None)
    }
}

/// Whether a version stays, if `next` is the next one in the order; `None` if there is none.
#[inline(always)]
pub(crate) fn keeps_before(selection: Selection, version: &Version, next: Option<&Version>) -> bool
    ensures { result ≡ keeps selection version.now (option_copied next.entry) }
{
    match next {
        None => stays(selection, version, None),
        Some(next) => keeps(selection, version, next),
    }
}

/// Whether a version stays, if the next version of its object has the time `end`; `None` if there is no next one.
pub(crate) fn stays(selection: Selection, version: &Version, end: Option<u64>) -> bool
    ensures { result ≡ stays selection version.now end }
{
    match selection {
        Selection::All => true,
        Selection::Visible => true,
        Selection::Newest => end.is_none(),
        Selection::NewestVisible => end.is_none() && is_visible(version),
        Selection::State(_) => end.is_none(),
        Selection::StateVisible(_) => end.is_none() && is_visible(version),
        Selection::Between { from, to } => {
            let start = moment(version);
            start < u64::from(to) && lasts(u64::from(from), start, end)
        }
    }
}

/// Whether a version of the time `start` is current at `from` or later, if the next one of its object has the time
/// `end`.
fn lasts(from: u64, start: u64, end: Option<u64>) -> bool
    ensures { result ≡ lasts from start end }
{
    match end {
        None => true,
        Some(end) => from < end || end == start && from <= end,
    }
}

/// Whether two versions are of one object: the same kind and the same id.
fn is_same_object(version: &Version, other: &Version) -> bool
    ensures { result ≡ same_object version.now other.now }
{
    version.object_cmp(other).is_eq()
}

/// Whether a version has no time, or one that isn't after the moment.
fn is_by(time: u32, version: &Version) -> bool
    ensures { result ≡ is_by time version.now }
{
    moment(version) <= u64::from(time)
}

/// The time of a version; no time counts as 0.
fn moment(version: &Version) -> u64
    ensures { result ≡ moment version.now }
{
    version.time().unwrap_or(0)
}

/// Whether a version isn't a deletion.
fn is_visible(version: &Version) -> bool
    ensures { result ≡ is_visible version.now }
{
    !version.body().is_deleted()
}
