//! The texts about a checked file: its report, a line of its tally, and an object of JSON.
use crate::report::shown::{Escaped, JsonText};
use crate::run::{CheckReport, Checked, Tally};
use jiff::Timestamp;
use std::fmt;
use std::fmt::{Display, Formatter};

/// The report, as `opl: 2 versions, 1 objects, sorted`.
impl Display for CheckReport {
    fn fmt<W: fmt::Write>(&self, f: &mut Formatter<W>) -> fmt::Result {
        let order = if self.sorted { "sorted" } else { "unsorted" };
        let (format, versions, objects) = (self.format.name(), self.versions, self.objects);
        write!(
            f,
            "{format}: {versions} versions, {objects} objects, {order}"
        )
    }
}

/// The numbers of versions by kind, as `2 nodes, 1 ways, 0 relations`.
impl Display for Tally {
    fn fmt<W: fmt::Write>(&self, f: &mut Formatter<W>) -> fmt::Result {
        let (nodes, ways, relations) = (self.nodes, self.ways, self.relations);
        write!(f, "{nodes} nodes, {ways} ways, {relations} relations")
    }
}

/// A moment in seconds since 1970-01-01T00:00:00Z, as `2015-06-01T00:00:00Z`. Times of versions are in the range of
/// [`Timestamp`].
#[derive(Clone, Copy, Debug)]
struct Moment(u64);

impl Display for Moment {
    fn fmt<W: fmt::Write>(&self, f: &mut Formatter<W>) -> fmt::Result {
        let seconds = i64::try_from(self.0).unwrap_or(i64::MAX);
        match Timestamp::from_second(seconds) {
            Ok(moment) => write!(f, "{moment}"),
            Err(_) => write!(f, "{seconds}"),
        }
    }
}

/// A checked file with its name. Its text is a line about the file, without a line feed.
#[derive(Clone, Copy, Debug)]
pub struct CheckedFile<'a> {
    /// The name of the file.
    pub name: &'a str,
    /// The number of its bytes.
    pub bytes: u64,
    /// Its report and its tally.
    pub checked: Checked,
}

impl Display for CheckedFile<'_> {
    fn fmt<W: fmt::Write>(&self, f: &mut Formatter<W>) -> fmt::Result {
        let (tally, deleted) = (self.checked.tally, self.checked.tally.deleted);
        write!(
            f,
            "osm_hist: check: {}: {tally}, {deleted} deleted, ",
            Escaped(self.name)
        )?;
        match (tally.first, tally.last) {
            (Some(first), Some(last)) => write!(f, "from {} to {}", Moment(first), Moment(last))?,
            _ => write!(f, "no times")?,
        }
        write!(f, ", {} bytes", self.bytes)
    }
}

/// A checked file as an object of JSON.
#[derive(Clone, Copy, Debug)]
pub struct CheckedJson<'a>(pub CheckedFile<'a>);

impl Display for CheckedJson<'_> {
    fn fmt<W: fmt::Write>(&self, f: &mut Formatter<W>) -> fmt::Result {
        let CheckedFile {
            name,
            bytes,
            checked,
        } = self.0;
        let (report, tally) = (checked.report, checked.tally);
        let (format, name) = (report.format.name(), JsonText(name));
        write!(
            f,
            "{{\"name\": {name}, \"format\": \"{format}\", \"versions\": {}",
            report.versions
        )?;
        write!(
            f,
            ", \"objects\": {}, \"sorted\": {}",
            report.objects, report.sorted
        )?;
        write!(f, ", \"nodes\": {}, \"ways\": {}", tally.nodes, tally.ways)?;
        write!(
            f,
            ", \"relations\": {}, \"deleted\": {}",
            tally.relations, tally.deleted
        )?;
        write!(
            f,
            ", \"first\": {}, \"last\": {}",
            JsonTime(tally.first),
            JsonTime(tally.last)
        )?;
        write!(f, ", \"bytes\": {bytes}}}")
    }
}

/// A time as a string of JSON, or `null` if there is none.
#[derive(Clone, Copy, Debug)]
struct JsonTime(Option<u64>);

impl Display for JsonTime {
    fn fmt<W: fmt::Write>(&self, f: &mut Formatter<W>) -> fmt::Result {
        match self.0 {
            Some(time) => write!(f, "\"{}\"", Moment(time)),
            None => write!(f, "null"),
        }
    }
}

/// A refused file as an object of JSON.
#[derive(Clone, Copy, Debug)]
pub struct RefusedJson<'a> {
    /// The name of the file.
    pub name: &'a str,
    /// The offset of its first fault, if the refusal has one.
    pub place: Option<u64>,
    /// The reason of the refusal.
    pub reason: &'a str,
}

impl Display for RefusedJson<'_> {
    fn fmt<W: fmt::Write>(&self, f: &mut Formatter<W>) -> fmt::Result {
        write!(f, "{{\"name\": {}, \"error\": {{", JsonText(self.name))?;
        if let Some(place) = self.place {
            write!(f, "\"place\": {place}, ")?;
        }
        write!(f, "\"reason\": {}}}}}", JsonText(self.reason))
    }
}

#[cfg(test)]
mod tests;
