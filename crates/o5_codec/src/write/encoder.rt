//! Writing data sets.
ghost use Rattle.std.specs.Prelude.{◌≡◌, ◌++◌, ◌<◌, ◌≤◌, length, drop, IfOk, IfErr, OnOk, OnErr};
ghost use Rattle.osm_model.specs.Data.{kind_of};
ghost use Rattle.osm_model.specs.Extends.{Extends};
ghost use Rattle.o5_codec.specs.Encoder as spec;

use crate::EncodeFault;
use crate::write::number::append_number;
use crate::write::segment::EncoderSegment;
use crate::write::set_buffer::SetBuffer;
use osm_model::{Kind, Memory, Version};
use std::alloc::Global;
use std::marker::Model;

/// The byte that begins a segment. It resets what later data sets are relative to.
pub const SEGMENT_RESET: u8 = 0xff;

/// Writes the data sets of o5m and o5c files in sequence, each relative to those before it in its segment. The bytes of
/// a version depend only on the version and on the versions written before it.
#[derive(Drop)]
pub struct Encoder {
    last: Kind,
    segment: EncoderSegment,
    failed: bool,
    alloc: Global,
    /// A buffer for a data set, with room for the type and the length before the content. It is reused.
    set: SetBuffer,
    /// A buffer for the section of references or members within a data set. It is reused.
    section: SetBuffer,
}

impl Model for Encoder {
    ghost use Rattle.o5_codec.specs.Encoder.{EncoderState};

    ghost Value = { EncoderState };

    ghost view = { λ e. record { written = record { last = e.last; segment = e.segment }; failed = e.failed } };
}

impl Encoder {
    /// An encoder after the header of a file. Its string table has room for all entries.
    ///
    /// # Errors
    ///
    /// `Memory` if the string table can't be allocated.
    pub fn new(alloc: Global) -> Result<Encoder, Memory>
        ensures { IfOk result (λ e. e ≡ spec.writing_on spec.initial_writer) }
    {
        Ok(Encoder {
            last: Kind::Node,
            segment: EncoderSegment::new(alloc)?,
            failed: false,
            alloc,
            set: SetBuffer::new(alloc),
            section: SetBuffer::new(alloc),
        })
    }

    /// Returns the data set of a version, after a reset if the version begins a segment. The kind of `v` may not be
    /// below that of the version written last: nodes come first, then ways, then relations.
    ///
    /// # Errors
    ///
    /// `Memory`, and from then on `Failed`.
    pub fn write_set(&mut self, v: &Version) -> Result<Vec<u8>, EncodeFault>
        requires { spec.IsNotBelow (kind_of v.now.body) self.old }
        ensures bytes { IfOk result (λ set. set.items ≡ spec.spelled_set self.old.written v.now) }
        ensures written { OnOk result (spec.Continues v.now self.old self.new) }
        ensures refused { IfErr result (λ fault. spec.Stops self.old self.new fault) }
    {
        let mut set = Vec::new(self.alloc);
        self.append_set(&mut set, v)?;
        Ok(set)
    }

    /// Appends the data set of a version, as [`Encoder::write_set`] returns it. An error leaves the bytes of `out`
    /// unchanged.
    ///
    /// # Errors
    ///
    /// `Memory`, and from then on `Failed`.
    pub fn append_set(&mut self, out: &mut Vec<u8>, v: &Version) -> Result<(), EncodeFault>
        requires { spec.IsNotBelow (kind_of v.now.body) self.old }
        ensures bytes { OnOk result (out.new.items ≡ out.old.items ++ spec.spelled_set self.old.written v.now) }
        ensures written { OnOk result (spec.Continues v.now self.old self.new) }
        ensures refused { IfErr result (λ fault. spec.Stops self.old self.new fault) }
        ensures unchanged { OnErr result (out.new.items ≡ out.old.items) }
    {
        if self.failed {
            return Err(EncodeFault::Failed);
        }
        match self.append_version(out, v) {
            Ok(()) => Ok(()),
            Err(_) => {
                self.failed = true;
                Err(EncodeFault::Memory)
            }
        }
    }

    /// Appends the data set of a version, if the encoder hasn't failed.
    fn append_version(&mut self, out: &mut Vec<u8>, v: &Version) -> Result<(), Memory>
        ensures bytes { OnOk result (out.new.items ≡ out.old.items ++ spec.spelled_set self.old.written v.now) }
        ensures written { OnOk result
            (self.new ≡ record { written = spec.writer_after self.old.written v.now; failed = self.old.failed }) }
        ensures unchanged { OnErr result (out.new.items ≡ out.old.items) }
    {
        let kind = v.kind();
        let begins = begins_segment(self.last, kind);
        begin_if(begins, &mut self.segment);
        self.last = kind;
        self.set.begin();
        self.segment
            .append_content(&mut self.set, &mut self.section, v)?;
        append_whole(out, begins, kind, &mut self.set)
    }
}

/// Whether a version of a kind begins a segment after one of the kind `last`.
fn begins_segment(last: Kind, kind: Kind) -> bool
    ensures { result ≡ spec.begins_segment last kind }
{
    last.index() != kind.index()
}

/// Clears `segment` if a segment begins.
fn begin_if(begins: bool, segment: &mut EncoderSegment)
    ensures { segment.new ≡ spec.segment_to_use begins segment.old }
{
    if begins {
        segment.clear();
    }
}

/// Appends a data set, after a reset if the data set begins a segment. `set` has room for two bytes, and then the
/// content. An error leaves the bytes of `out` unchanged.
fn append_whole(
    out: &mut Vec<u8>,
    begins: bool,
    kind: Kind,
    set: &mut SetBuffer,
) -> Result<(), Memory>
    requires { 2 ≤ length set.old }
    ensures bytes { OnOk result
        (out.new.items ≡ out.old.items ++ (spec.reset_before begins ++ spec.data_set kind (drop 2 set.old))) }
    ensures unchanged { OnErr result (out.new.items ≡ out.old.items) }
{
    let before = out.len();
    match append_parts(out, begins, kind, set) {
        Ok(()) => Ok(()),
        Err(_) => {
            out.truncate(before);
            Err(Memory)
        }
    }
}

/// Appends a data set, like `append_whole`. After an error `out` may have a part of the data set.
#[inline(always)]
fn append_parts(
    out: &mut Vec<u8>,
    begins: bool,
    kind: Kind,
    set: &mut SetBuffer,
) -> Result<(), Memory>
    requires { 2 ≤ length set.old }
    ensures bytes { OnOk result
        (out.new.items ≡ out.old.items ++ (spec.reset_before begins ++ spec.data_set kind (drop 2 set.old))) }
    ensures kept { Extends out.old.items out.new.items }
{
    let length = set.len() - 2;
    if begins || length >= 128 {
        return append_any_set(out, begins, kind, set);
    }
    append_short_set(out, kind, set)
}

/// Appends a data set with less than 128 bytes of content that begins no segment.
#[inline(always)]
fn append_short_set(out: &mut Vec<u8>, kind: Kind, set: &mut SetBuffer) -> Result<(), Memory>
    requires some { 2 ≤ length set.old }
    requires short { length set.old < 130 }
    ensures bytes { OnOk result (out.new.items ≡ out.old.items ++ spec.data_set kind (drop 2 set.old)) }
    ensures kept { Extends out.old.items out.new.items }
{
    let length = (set.len() - 2) as u8;
    if !set.set_front(type_byte(kind), length) {
        return append_any_set(out, false, kind, set);
    }
    set.append_to(out)
}

/// Appends a data set with any content, after a reset if it begins a segment.
#[inline(never)]
fn append_any_set(
    out: &mut Vec<u8>,
    begins: bool,
    kind: Kind,
    set: &SetBuffer,
) -> Result<(), Memory>
    requires { 2 ≤ length set.now }
    ensures bytes { OnOk result
        (out.new.items ≡ out.old.items ++ (spec.reset_before begins ++ spec.data_set kind (drop 2 set.now))) }
    ensures kept { Extends out.old.items out.new.items }
{
    if begins {
        out.push(SEGMENT_RESET)?;
    }
    out.push(type_byte(kind))?;
    append_number(out, set.len() - 2)?;
    set.append_after_front(out)
}

/// The byte that begins the data set of an object of this kind.
fn type_byte(kind: Kind) -> u8
    ensures { result ≡ spec.type_byte kind }
{
    match kind {
        Kind::Node => 0x10,
        Kind::Way => 0x11,
        Kind::Relation => 0x12,
    }
}
