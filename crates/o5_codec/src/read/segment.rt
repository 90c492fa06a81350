//! The segment that data sets are read relative to, and the steps of a data set before its body.
ghost use Rattle.std.specs.Prelude.{◌≡◌};
ghost use Rattle.o5_codec.specs.Results.{O5Gives, O5Reads};
ghost use Rattle.o5_codec.specs.Segment as spec;

use crate::O5Reason;
use crate::base::Bases;
use crate::read::base::within_range;
use crate::read::number::read_number;
use crate::read::strings::read_spelled;
use crate::read::table::Table;
use crate::strings::Form;
use osm_model::{Meta, Text};

/// Which of two kinds of lists a segment had. No segment may have both.
#[derive(Clone, Copy, Debug, PartialEq, Eq)]
pub enum ListsSeen {
    /// Neither of them.
    Neither,
    /// A way with references.
    References,
    /// A relation with a node member.
    NodeMembers,
}

/// The part of a segment that later data sets are read relative to.
#[derive(Drop)]
pub struct Segment {
    pub(crate) bases: Bases,
    pub(crate) table: Table,
    pub(crate) seen: ListsSeen,
}

impl Segment {
    /// The object's id, and the bytes after it.
    #[tactic(auto, unfolding(crate::specs::Segment::id_at))]
    pub(crate) fn read_id<'a>(&mut self, bytes: &'a [u8]) -> Result<(i64, &'a [u8]), O5Reason>
        ensures { O5Gives (λ x. (x.0, self.new, x.1.now)) (spec.id_at self.old bytes.now) result }
    {
        self.bases.id.read(bytes)
    }

    /// Reads version number, time, changeset and user into `meta`. Returns the bytes after them.
    #[tactic(auto, unfolding(crate::specs::Segment::meta_at))]
    pub(crate) fn read_meta<'a>(
        &mut self,
        bytes: &'a [u8],
        meta: &mut Meta,
    ) -> Result<&'a [u8], O5Reason>
        ensures { O5Reads (λ rest. (meta.new, self.new, rest.now)) (spec.meta_at self.old bytes.now) result }
    {
        let (version, rest) = read_version(bytes)?;
        meta.version = u64::from(version);
        let (time, rest) = self.read_time(rest)?;
        meta.time = time_of(time);
        self.read_author(time, rest, meta)
    }

    /// The time in seconds, or 0 for no time, and the bytes after it.
    #[tactic(auto, unfolding(crate::specs::Segment::time_at))]
    fn read_time<'a>(&mut self, bytes: &'a [u8]) -> Result<(u32, &'a [u8]), O5Reason>
        ensures { O5Gives (λ x. (x.0, self.new, x.1.now)) (spec.time_at self.old bytes.now) result }
    {
        self.bases.time.read(bytes)
    }

    /// Reads the changeset and the user of a version into `meta`. Returns the bytes after them. If `time` is 0, the
    /// version has no time, and neither of the two.
    #[tactic(auto, unfolding(crate::specs::Segment::author_at))]
    fn read_author<'a>(
        &mut self,
        time: u32,
        bytes: &'a [u8],
        meta: &mut Meta,
    ) -> Result<&'a [u8], O5Reason>
        ensures { O5Reads (λ rest. (meta.new, self.new, rest.now))
            (spec.and_author meta.old (spec.author_at time self.old bytes.now)) result }
    {
        if time == 0 {
            meta.changeset = 0;
            meta.uid = 0;
            meta.user.overwrite(Text::new());
            return Ok(bytes);
        }
        let (changeset, rest) = self.read_changeset(bytes)?;
        meta.changeset = u64::from(changeset);
        self.read_author_after(rest, meta)
    }

    /// Reads the user into `meta`, which has the changeset already. Returns the bytes after the user. If `bytes` is
    /// empty, the version has no user.
    #[tactic(auto, unfolding(crate::specs::Segment::author_after_changeset))]
    fn read_author_after<'a>(
        &mut self,
        bytes: &'a [u8],
        meta: &mut Meta,
    ) -> Result<&'a [u8], O5Reason>
        ensures { O5Reads (λ rest. (meta.new, self.new, rest.now))
            (spec.and_author meta.old (spec.author_after_changeset (meta.old.changeset, self.old, bytes.now))) result }
    {
        if bytes.is_empty() {
            meta.uid = 0;
            meta.user.overwrite(Text::new());
            return Ok(bytes);
        }
        self.read_user(bytes, meta)
    }

    /// The changeset, and the bytes after it.
    #[tactic(auto, unfolding(crate::specs::Segment::changeset_at))]
    fn read_changeset<'a>(&mut self, bytes: &'a [u8]) -> Result<(u32, &'a [u8]), O5Reason>
        ensures { O5Gives (λ x. (x.0, self.new, x.1.now)) (spec.changeset_at self.old bytes.now) result }
    {
        self.bases.changeset.read(bytes)
    }

    /// Reads user id and user name into `meta`. Returns the bytes after them.
    #[tactic(auto, unfolding(crate::specs::Segment::user_at, crate::specs::StringPair::strings_at))]
    fn read_user<'a>(&mut self, bytes: &'a [u8], meta: &mut Meta) -> Result<&'a [u8], O5Reason>
        ensures { O5Reads (λ rest. (meta.new, self.new, rest.now))
            (spec.and_user_read meta.old (spec.user_at self.old bytes.now)) result }
    {
        let (spelled, rest) = read_spelled(Form::Pair, bytes)?;
        self.table.store(&spelled)?;
        self.table.put_user(&spelled, meta)?;
        Ok(rest)
    }
}

/// The version number, and the bytes after it.
#[tactic(auto, unfolding(crate::specs::Segment::version_at))]
fn read_version(bytes: &[u8]) -> Result<(u32, &[u8]), O5Reason>
    ensures { O5Gives (λ x. (x.0, x.1.now)) (spec.version_at bytes.now) result }
{
    let (number, rest) = read_number(bytes)?;
    if number == 0 {
        return Err(O5Reason::NoVersion);
    }
    let version = within_range(number)?;
    Ok((version, rest))
}

/// The time of a version; 0 means that the version has none.
fn time_of(time: u32) -> Option<u64>
    ensures { result ≡ spec.time_of time }
{
    if time == 0 {
        None
    } else {
        Some(u64::from(time))
    }
}
