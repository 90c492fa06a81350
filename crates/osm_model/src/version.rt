//! Versions of objects.
ghost use Rattle.std.specs.Prelude.{◌≡◌, ◌⊎◌, ◌<◌, ◌^◌, None, Some, Ok, Err, refl, IfOk, IfErr, MatchResult};
ghost use Rattle.std.specs.Ordering.{eq_by_cmp, as_partial_cmp, nat_cmp};
ghost use Rattle.std.specs.Cmp.{eq_by_cmp_equiv, partial_equiv_from_equiv, partial_order_from_agreeing_total};
ghost use Rattle.std.specs.Cmp.Lexicographic.{slice_cmp};
ghost use Rattle.std.specs.Option.{ForSome};
ghost use Rattle.osm_model.specs.Data.{kind_of, normal_body, version_of};
ghost use Rattle.osm_model.specs.Order.{object_cmp, key_cmp, data_cmp, version_cmp, version_cmp_total};
ghost use Rattle.osm_model.specs.Line.{line};
ghost use Rattle.osm_model.specs.New.{IsToFill, first_fault, version_or_fault};
ghost use Rattle.osm_model.specs.Valid.{IsInRange, IsVersion};
ghost use Rattle.osm_model.specs.declared.body.Body.TheVariants.{Deleted};
ghost use Rattle.osm_model.specs.declared.fault.ValueFault.TheVariants as fault;

use crate::id::is_id;
use crate::same::Same;
use crate::{Body, Key, Kind, Memory, Meta, Object, Spare, Text, ValueFault};
use std::alloc::Global;
use std::cmp::Ordering;
use std::marker::Model;
use std::mem;

/// A version of an object, within the ranges of all its parts.
///
/// Versions are ordered by their objects (nodes, ways, relations; ids not above 0 before the others; the absolute value
/// of the id), their numbers, their times with none as 0, visible ones before deleted ones, and the bytes of their
/// canonical lines. Only equal versions tie. Comparisons take no memory.
///
/// A version is a pointer to its parts, so a move copies one word.
#[derive(Debug, Drop)]
pub struct Version {
    parts: Box<Parts>,
}

/// The parts of a version. A reader fills the parts of the next version one by one, in place.
#[derive(Debug, Drop)]
pub struct Parts {
    /// The id; [`is_id`] is its range in a version.
    pub id: i64,
    /// The kind of the body, which comparisons read.
    kind: Kind,
    /// The metadata, which may be out of range until a version is made.
    pub meta: Meta,
    /// The body, whose tags may have any order until a version is made.
    pub body: Body,
}

impl Model for Version {
    ghost use Rattle.osm_model.specs.Data.{VersionData};
    ghost use Rattle.osm_model.specs.Inside.{data_of, HoldsVersion};

    ghost Value = { VersionData };

    ghost view = { data_of };

    ghost invariant = { HoldsVersion };
}

/// The first fault of data, in the order of [`Version::new`].
pub(crate) fn first_fault(id: i64, meta: &Meta, body: &Body) -> Option<ValueFault>
    ensures { result ≡ first_fault id meta.now body.now }
{
    if !(is_id(id) && body.are_ids()) {
        return Some(ValueFault::IdRange);
    }
    if meta.version == 0 {
        return Some(ValueFault::NoVersion);
    }
    if !meta.are_numbers() {
        return Some(ValueFault::NumberRange);
    }
    if !meta.is_time() {
        return Some(ValueFault::TimeRange);
    }
    if !meta.is_dated() {
        return Some(ValueFault::NoTime);
    }
    if !(meta.user.is_text() && body.are_texts()) {
        return Some(ValueFault::ZeroInText);
    }
    None
}

impl Parts {
    /// Parts to fill, in the memory of the version of `spare`, or in new memory if it has none. Their body has no ids
    /// and no texts, and their user name has at most 24 bytes: neither holds memory of its own.
    ///
    /// # Errors
    ///
    /// Only out of memory, if `spare` has no version.
    #[inline(always)]
    pub fn recycled_or_new(alloc: Global, spare: &mut Spare) -> Result<Box<Parts>, Memory>
        ensures { IfOk result (λ parts. IsToFill parts.value.meta parts.value.body) }
    {
        match spare.take_version() {
            Some(version) => Ok(Parts::recycle(version)),
            // `?` unwraps the result here, so that a caller that doesn't allocate initializes no space for it.
            None => Ok(Parts::blank(alloc)?),
        }
    }

    /// The parts of a version that isn't needed any more.
    #[inline(always)]
    fn recycle(version: Version) -> Box<Parts>
        ensures { IsToFill result.value.meta result.value.body }
    {
        let Version { mut parts } = version;
        parts.release();
        parts
    }

    /// Empty parts, in new memory.
    #[inline(never)]
    fn blank(alloc: Global) -> Result<Box<Parts>, Memory>
        ensures { IfOk result (λ parts. IsToFill parts.value.meta parts.value.body) }
    {
        let parts = Parts {
            id: 0,
            kind: Kind::Node,
            meta: Meta::blank(),
            body: Body::Deleted(Kind::Node),
        };
        Ok(Box::new(alloc, parts)?)
    }

    /// Frees the memory that the parts hold; most hold none.
    #[inline(always)]
    fn release(&mut self)
        ensures { IsToFill self.new.meta self.new.body }
    {
        if self.body.has_memory() {
            self.body.release();
        }
        if self.meta.user.has_memory() {
            self.meta.user.release();
        }
    }

    /// Takes the body out, and leaves the body of a deleted object of its kind.
    #[inline(always)]
    fn take_body(&mut self) -> Body
        ensures id { self.new.id ≡ self.old.id }
        ensures kind { self.new.kind ≡ self.old.kind }
        ensures meta { self.new.meta ≡ self.old.meta }
        ensures body { self.new.body ≡ Deleted self.old.kind }
    {
        mem::replace(&mut self.body, Body::Deleted(self.kind))
    }

    #[inline(always)]
    fn fill(&mut self, id: i64, meta: Meta, body: Body)
        ensures id { self.new.id ≡ id }
        ensures meta { self.new.meta ≡ meta }
        ensures body { self.new.body ≡ body }
    {
        self.id = id;
        // The replaced metadata holds no memory, so it is forgotten and not dropped.
        mem::forget(mem::replace(&mut self.meta, meta));
        self.body.overwrite(body);
    }

    /// Completes the parts of a version: sets the kind, sorts the tags and drops repeats.
    #[inline(always)]
    fn finish(&mut self)
        ensures id { self.new.id ≡ self.old.id }
        ensures kind { self.new.kind ≡ kind_of self.old.body }
        ensures meta { self.new.meta ≡ self.old.meta }
        ensures body { self.new.body ≡ normal_body self.old.body }
        ensures location { IsInRange self.new.body }
    {
        self.kind = self.body.kind();
        self.body.normalize();
        self.body.show_in_range();
    }
}

impl Version {
    /// The version of an id, metadata and a body. Its tags are sorted by the bytes of key and value, without exact
    /// repeats.
    ///
    /// # Errors
    ///
    /// The first fault in the order of `IdRange`, `NoVersion`, `NumberRange`, `TimeRange`, `NoTime`, `ZeroInText`. If
    /// there is none and an allocation fails, `Memory`.
    pub fn new(alloc: Global, id: i64, meta: Meta, body: Body) -> Result<Version, ValueFault>
        ensures value { MatchResult result
            (λ version. version_or_fault id meta body ≡ Ok version)
            (λ refused. (refused ≡ fault.Memory) ⊎ (version_or_fault id meta body ≡ Err refused)) }
        ensures faulty { IfErr (version_or_fault id meta body) (λ refused. result ≡ Err refused) }
        ensures valid { IfOk result IsVersion }
    {
        if let Some(fault) = first_fault(id, &meta, &body) {
            return Err(fault);
        }
        match Version::from_checked_data(alloc, &mut Spare::new(alloc), id, meta, body) {
            Ok(version) => Ok(version),
            Err(_) => Err(ValueFault::Memory),
        }
    }

    /// The version of data that has no fault, as [`Version::new`] makes it, without its tests. If `spare` has a
    /// version, the new one is made in its memory.
    ///
    /// # Errors
    ///
    /// Only out of memory, if `spare` has no version.
    #[inline(always)]
    pub fn from_checked_data(
        alloc: Global,
        spare: &mut Spare,
        id: i64,
        meta: Meta,
        body: Body,
    ) -> Result<Version, Memory>
        requires { first_fault id meta body ≡ None }
        ensures value { IfOk result (λ version. version ≡ version_of id meta body) }
        ensures valid { IfOk result IsVersion }
    {
        let mut parts = Parts::recycled_or_new(alloc, spare)?;
        parts.fill(id, meta, body);
        Ok(Version::from_checked_parts(parts))
    }

    /// The version of parts whose data has no fault, as [`Version::new`] makes it, without its tests.
    #[inline(always)]
    pub fn from_checked_parts(mut parts: Box<Parts>) -> Version
        requires { first_fault parts.value.id parts.value.meta parts.value.body ≡ None }
        ensures value { result ≡ version_of parts.value.id parts.value.meta parts.value.body }
        ensures valid { IsVersion result }
    {
        parts.finish();
        Version { parts }
    }

    /// The id of the object. Its contract also says that the version is within its ranges.
    pub fn id(&self) -> i64
        ensures value { result ≡ self.now.id }
        ensures valid { IsVersion self.now }
    {
        self.parts.id
    }

    /// The kind, also of a deleted version.
    pub fn kind(&self) -> Kind
        ensures { result ≡ kind_of self.now.body }
    {
        self.parts.kind
    }

    /// The version number, 1 to 4294967295.
    pub fn number(&self) -> u64
        ensures { result ≡ self.now.number }
    {
        self.parts.meta.version
    }

    /// Seconds since 1970-01-01T00:00:00Z, 1 to 4294967295.
    pub fn time(&self) -> Option<u64>
        ensures value { result ≡ self.now.time }
        ensures range { ForSome result (λ t. (0 < t) × (t < 2 ^ 32)) }
    {
        self.parts.meta.time
    }

    /// The changeset, up to 4294967295; 0 without a time.
    pub fn changeset(&self) -> u64
        ensures { result ≡ self.now.changeset }
    {
        self.parts.meta.changeset
    }

    /// The user id, up to 4294967295; 0 without a time.
    pub fn uid(&self) -> u64
        ensures { result ≡ self.now.uid }
    {
        self.parts.meta.uid
    }

    /// The user name; empty without a time.
    pub fn user(&self) -> &Text
        ensures { result.now ≡ self.now.user }
    {
        &self.parts.meta.user
    }

    /// The location, references or members, and the tags; or that the version is deleted.
    pub fn body(&self) -> &Body
        ensures { result.now ≡ self.now.body }
    {
        &self.parts.body
    }

    /// The order of the objects, [`Object::order`].
    pub fn object_cmp(&self, other: &Version) -> Ordering
        ensures { result ≡ object_cmp self.now other.now }
    {
        Object::of(self).order(&Object::of(other))
    }

    /// The order of the keys, [`Key::order`].
    pub fn key_cmp(&self, other: &Version) -> Ordering
        ensures { result ≡ key_cmp self.now other.now }
    {
        Key::of(self).order(&Key::of(other))
    }

    /// Takes the body out, and leaves the body of a deleted object of its kind.
    #[inline(always)]
    pub(crate) fn take_body(&mut self) -> Body {
        self.parts.take_body()
    }

    /// An equal version in new memory.
    ///
    /// # Errors
    ///
    /// Only out of memory.
    pub fn copy(&self) -> Result<Version, Memory>
        ensures { IfOk result (λ v. v ≡ self.now) }
    {
        let alloc = *Box::allocator(&self.parts);
        let parts = Parts {
            id: self.parts.id,
            kind: self.parts.kind,
            meta: self.parts.meta.copy()?,
            body: self.parts.body.copy()?,
        };
        Ok(Version {
            parts: Box::new(alloc, parts)?,
        })
    }

    /// Compares the keys, the times, and whether the versions are deleted. The lines are compared only after these.
    fn data_cmp(&self, other: &Version) -> Ordering
        ensures { result ≡ data_cmp self.now other.now }
    {
        let key = self.key_cmp(other);
        if key != Ordering::Equal {
            return key;
        }
        let time = self.time().unwrap_or(0).cmp(&other.time().unwrap_or(0));
        let deleted = self.body().is_deleted().cmp(&other.body().is_deleted());
        time.then(deleted)
    }

    /// The order of the bytes of the lines. They are compared run by run, so that no whole line is made.
    #[inline(never)]
    fn line_cmp(&self, other: &Version) -> Ordering
        ensures { result ≡ slice_cmp nat_cmp (line self.now) (line other.now) }
    {
        let (mut line, mut other_line) = (self.line_bytes(), other.line_bytes());
        'runs: loop {
            if !line.fill() {
                return if other_line.fill() {
                    Ordering::Less
                } else {
                    Ordering::Equal
                };
            }
            if !other_line.fill() {
                return Ordering::Greater;
            }
            let (run, other_run) = (line.chunk(), other_line.chunk());
            let length = run.len().min(other_run.len());
            match run[..length].cmp(&other_run[..length]) {
                Ordering::Equal => {}
                order => return order,
            }
            line.drop_front(length);
            other_line.drop_front(length);
        }
    }
}

impl Same for Version {
    fn is_same(&self, other: &Version) -> bool {
        let (parts, others) = (&*self.parts, &*other.parts);
        parts.id == others.id
            && parts.meta.is_same(&others.meta)
            && parts.body.is_same(&others.body)
    }
}

impl PartialEq for Version {
    ghost eq = { eq_by_cmp version_cmp };

    ghost laws = { partial_equiv_from_equiv (eq_by_cmp_equiv version_cmp_total) };

    fn eq(&self, other: &Version) -> bool {
        self.is_same(other)
    }
}

impl Eq for Version {
    ghost laws = { eq_by_cmp_equiv version_cmp_total };
}

impl PartialOrd for Version {
    ghost partial_cmp = { as_partial_cmp version_cmp };

    ghost laws = { partial_order_from_agreeing_total version_cmp version_cmp_total (λ x y. refl) (λ x y. refl) };

    fn partial_cmp(&self, other: &Version) -> Option<Ordering> {
        Some(self.cmp(other))
    }
}

impl Ord for Version {
    ghost cmp = { version_cmp };

    ghost total = { version_cmp_total };

    ghost matches_partial_cmp = { λ x y. refl };

    ghost matches_eq = { λ x y. refl };

    fn cmp(&self, other: &Version) -> Ordering {
        let data = self.data_cmp(other);
        if data != Ordering::Equal {
            return data;
        }
        if self.is_same(other) {
            return Ordering::Equal;
        }
        self.line_cmp(other)
    }
}
