//! The changeset, time and user that lines of versions uploaded together share. They are parsed once.
ghost use Rattle.std.specs.Prelude.{◌≡◌, ◌++◌, IfSome};
ghost use Rattle.opl_line.specs.Straight.{IsAuthored};
ghost use Rattle.opl_line.specs.AuthorFields.{AreFieldsOf};

use osm_model::Meta;
use std::alloc::Global;
use std::marker::Model;

/// The changeset, the time and the user of versions that were uploaded together, with their fields in a canonical line.
/// Neighbours in a file were often uploaded together, and then the reader parses these fields once.
///
/// A version is noted if its line doesn't repeat the kept fields. If the version noted before has the same changeset
/// and time, the fields of the new one are kept. So a line that repeats no fields costs nearly nothing.
#[derive(Drop)]
pub(crate) struct SharedAuthor {
    /// The changeset and the time of the version noted last.
    last_changeset: u64,
    last_time: Option<u64>,
    /// The kept metadata; its version number is unused.
    meta: Meta,
    /// The kept fields, from the changeset to the user name, or nothing if none are kept.
    fields: Vec<u8>,
}

/// The kept fields don't change how a line is read, so contracts see nothing of them.
impl Model for SharedAuthor {
    ghost use Rattle.opl_line.specs.SharedAuthor.{HoldsSharedAuthor};

    ghost Value = { Unit {0} };

    ghost view = { λ _. tt };

    ghost invariant = { HoldsSharedAuthor };
}

impl SharedAuthor {
    /// A `SharedAuthor` that keeps no fields.
    pub(crate) fn new(alloc: Global) -> SharedAuthor {
        SharedAuthor {
            last_changeset: 0,
            last_time: None,
            meta: Meta::blank(),
            fields: Vec::new(alloc),
        }
    }

    /// Reads `text`, a line from the changeset on, if it begins with the kept fields and a blank ends them. Returns the
    /// metadata of a version with the number `version`, and the text after the user name.
    #[inline(always)]
    pub(crate) fn read<'a>(&self, version: u64, text: &'a [u8]) -> Option<(Meta, &'a [u8])>
        ensures { IfSome result (λ read. IsAuthored text.now version read.0 read.1.now) }
    {
        if self.fields.is_empty() {
            return None;
        }
        let rest = rest(text, &self.fields)?;
        if rest.first() != Some(&b' ') {
            return None;
        }
        let Ok(user) = self.meta.user.copy() else {
            return None;
        };
        let meta = Meta {
            version,
            time: self.meta.time,
            changeset: self.meta.changeset,
            uid: self.meta.uid,
            user,
        };
        Some((meta, rest))
    }

    /// Notes the fields of a version from the changeset to the user name, and keeps them if the version noted before
    /// had the same changeset and time. `text` begins with the fields, and `rest` is the text after them.
    #[inline(always)]
    pub(crate) fn note(&mut self, meta: &Meta, text: &[u8], rest: &[u8])
        requires { IsAuthored text.now meta.now.version meta.now rest.now }
    {
        if meta.changeset == self.last_changeset && meta.time == self.last_time {
            self.keep(meta, text, rest);
        }
        self.last_changeset = meta.changeset;
        self.last_time = meta.time;
    }

    /// Keeps the fields of a version from the changeset to the user name, or nothing when out of memory.
    #[inline(never)]
    fn keep(&mut self, meta: &Meta, text: &[u8], rest: &[u8])
        requires { IsAuthored text.now meta.now.version meta.now rest.now }
    {
        self.fields.clear();
        if let Ok(copy) = meta.copy() {
            let fields = fields_of(meta, text, rest);
            if self.fields.extend_from_slice(fields).is_ok() {
                self.meta = copy;
                return;
            }
        }
        self.fields.clear();
    }
}

/// The fields of `meta`, which `text` begins with. `rest` is the text after them.
fn fields_of<'a>(meta: &Meta, text: &'a [u8], rest: &[u8]) -> &'a [u8]
    requires { IsAuthored text.now meta.now.version meta.now rest.now }
    ensures { AreFieldsOf meta.now result.now }
{
    &text[..text.len() - rest.len()]
}

/// The bytes of `text` after `first`, if `text` begins with `first`.
#[inline(always)]
fn rest<'a>(text: &'a [u8], first: &[u8]) -> Option<&'a [u8]>
    ensures { IfSome result (λ rest. text.now ≡ first.now ++ rest.now) }
{
    if text.len() < first.len() {
        return None;
    }
    let (front, rest) = text.split_at(first.len());
    if front == first { Some(rest) } else { None }
}
