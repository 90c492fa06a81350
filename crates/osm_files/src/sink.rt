//! Sinks: a file that is written version by version.
ghost use Rattle.std.specs.Prelude.{◌≡◌, ◌≢◌, ◌+◌, ◌<◌, ◌^◌, ◌++◌, false, true, [], Ok, Err, length};
ghost use Rattle.std.specs.Prelude.{IfOk, IfErr, OnOk, OnErr};
ghost use Rattle.o5_codec.specs.Encoder.{initial_writer};
ghost use Rattle.osm_files.specs.Fault.{memory_fault, too_long_fault, write_fault};
ghost use Rattle.osm_files.specs.Output.{Appends, FailingLasts, IsGoodThroughout};
ghost use Rattle.osm_files.specs.Change.{change_of};
ghost use Rattle.osm_files.specs.declared.format.Format.{Format};
ghost use Rattle.osm_files.specs.declared.format.Format.TheVariants as format;
ghost use Rattle.osm_files.specs.Spell as spelling;
ghost use Rattle.osm_files.specs.Sink as spec;

use crate::fault::Fault;
use crate::format::Format;
use crate::o5::{FILE_END, O5C_HEADER, O5M_HEADER};
use crate::output::Output;
use crate::write::{write_all, write_fault};
use o5_codec::Encoder;
use osm_model::{History, Kind, Memory, Version};
use std::alloc::Global;
use std::marker::Model;

/// The form in which versions are written, with the state of the writing.
#[derive(Drop)]
enum UnitWriter {
    /// Lines, with the kind of the version written last; before the first version it is `Node`.
    Lines(Kind),
    /// Data sets, with the state of their encoder.
    DataSets(Encoder),
}

impl UnitWriter {
    /// The state of writing in `format` before the first version.
    fn new(alloc: Global, format: Format) -> Result<UnitWriter, Memory>
        ensures units { IfOk result (λ u. spec.IsUnitWriterOf format u) }
        ensures nothing { IfOk result (λ u. spec.state_of_unit_writer u ≡ initial_writer) }
    {
        match format {
            Format::Opl => Ok(UnitWriter::Lines(Kind::Node)),
            Format::O5m | Format::O5c => Ok(UnitWriter::DataSets(Encoder::new(alloc)?)),
        }
    }

    /// Appends to `bytes` the line or data set of `v`, which comes after the versions appended before.
    ///
    /// # Errors
    ///
    /// Only out of memory. A part of the version may be appended then.
    fn append(&mut self, bytes: &mut Vec<u8>, v: &Version) -> Result<(), Memory>
        requires follows { spec.MayFollow v.now (spec.state_of_unit_writer self.old) }
        requires good { spec.IsGoodUnitWriter self.old }
        ensures bytes { OnOk result ((f : Format) → spec.IsUnitWriterOf f self.old
            → bytes.new.items ≡ bytes.old.items ++ spelling.version_bytes f
            (spec.state_of_unit_writer self.old) v.now) }
        ensures some { OnOk result (0 < length bytes.new.items) }
        ensures units { OnOk result ((f : Format) → spec.IsUnitWriterOf f self.old → spec.IsUnitWriterOf f self.new) }
        ensures writer { OnOk result ((f : Format) → spec.IsUnitWriterOf f self.old
            → spec.state_of_unit_writer self.new ≡ spelling.writer_with f (spec.state_of_unit_writer self.old) v.now) }
    {
        match self {
            UnitWriter::Lines(last) => {
                *last = v.kind();
                v.append_line(bytes)?;
                bytes.push(b'\n')?;
                Ok(())
            }
            UnitWriter::DataSets(encoder) => match encoder.append_set(bytes, v) {
                Ok(()) => Ok(()),
                Err(_) => Err(Memory),
            },
        }
    }
}

/// Writes one file, version by version, to an output that each call gets as an argument.
///
/// It keeps no version, only the state on which the bytes of the next version depend. Each call writes at once.
#[derive(Drop)]
pub struct Sink {
    format: Format,
    /// The number of the output, which the sink's faults have.
    number: usize,
    units: UnitWriter,
    /// The number of bytes written so far.
    written: u64,
    has_begun: bool,
    ended: bool,
    failed: bool,
    /// The bytes of one version; reused for each.
    buffer: Vec<u8>,
}

impl Model for Sink {
    ghost use Rattle.osm_files.specs.Sink.{SinkState};
    ghost use Rattle.osm_files.specs.InsideSink.{IsGoodSink, state_of};

    ghost Value = { SinkState };

    ghost view = { state_of };

    ghost invariant = { IsGoodSink };
}

impl Sink {
    /// A sink for a file of the format `format`. `number` is the number of the output. The call writes nothing.
    ///
    /// # Errors
    ///
    /// Only out of memory.
    pub fn new(alloc: Global, format: Format, number: usize) -> Result<Sink, Fault>
        ensures ok { IfOk result (λ sink. sink ≡ spec.new_sink format number) }
        ensures err { IfErr result (λ fault. fault ≡ memory_fault) }
    {
        let Ok(units) = UnitWriter::new(alloc, format) else {
            return Err(Fault::memory());
        };
        Ok(Sink {
            format,
            number,
            units,
            written: 0,
            has_begun: false,
            ended: false,
            failed: false,
            buffer: Vec::new(alloc),
        })
    }

    /// Begins the file: writes its header. OPL has none, so the output is unchanged.
    ///
    /// # Errors
    ///
    /// `WriteFault` if the output fails, at the number of bytes that it took; `Failed` if an earlier call was refused.
    pub fn begin<W: Output>(&mut self, out: &mut W) -> Result<(), Fault>
        requires { self.old.has_begun ≡ false }
        ensures calls { spec.Calls (spec.after_begin self.old) self.new spec.same_sink
            (change_of W.Output out.old out.new) (spelling.file_start self.old.format) result }
        ensures memory { result ≢ Err memory_fault }
        ensures lines { self.old.failed ≡ false → self.old.format ≡ format.Opl →
            (result ≡ Ok tt) × (out.new ≡ out.old) }
        ensures good { OnOk result (self.old.format ≢ format.Opl →
            IsGoodThroughout (change_of W.Output out.old out.new)) }
        ensures lasts { FailingLasts (change_of W.Output out.old out.new) }
        ensures untouched { spec.IsBeforeWriting self.old.number result → out.new ≡ out.old }
    {
        self.has_begun = true;
        if self.failed {
            return Err(Fault::failed(self.number));
        }
        let header = match self.format {
            Format::Opl => return Ok(()),
            Format::O5m => O5M_HEADER,
            Format::O5c => O5C_HEADER,
        };
        match send(out, self.number, &mut self.written, &header) {
            Ok(()) => Ok(()),
            Err(fault) => {
                self.failed = true;
                Err(fault)
            }
        }
    }

    /// Writes a version. Its kind must not be below the kind of the version written last.
    ///
    /// # Errors
    ///
    /// `Memory` if memory runs out, or `TooLong` if the file would have 2^62 bytes or more; then nothing is written.
    /// `WriteFault` if the output fails, at the number of bytes that it took in all. `Failed` if an earlier call was
    /// refused.
    #[inline(always)]
    pub fn put<W: Output>(&mut self, out: &mut W, v: &Version) -> Result<(), Fault>
        requires open { spec.IsOpen self.old }
        requires follows { spec.Takes v.now self.old }
        ensures calls { spec.Calls self.old self.new (spec.after_put v.now)
            (change_of W.Output out.old out.new) (spelling.version_bytes self.old.format self.old.encoder v.now)
            result }
        ensures good { OnOk result (IsGoodThroughout (change_of W.Output out.old out.new)) }
        ensures lasts { FailingLasts (change_of W.Output out.old out.new) }
        ensures untouched { spec.IsBeforeWriting self.old.number result → out.new ≡ out.old }
    {
        if self.failed {
            return Err(Fault::failed(self.number));
        }
        self.buffer.clear();
        if self.units.append(&mut self.buffer, v).is_err() {
            self.failed = true;
            return Err(Fault::memory());
        }
        match send(out, self.number, &mut self.written, &self.buffer) {
            Ok(()) => Ok(()),
            Err(fault) => {
                self.failed = true;
                Err(fault)
            }
        }
    }

    /// Ends the file, and flushes the output.
    ///
    /// # Errors
    ///
    /// As for [`Sink::put`], but never `Memory`. A flush that fails is a `WriteFault` at the number of bytes written.
    pub fn end<W: Output>(&mut self, out: &mut W) -> Result<(), Fault>
        requires { spec.IsOpen self.old }
        ensures calls { spec.Calls (spec.after_end self.old) self.new spec.same_sink
            (change_of W.Output out.old out.new) (spelling.file_end self.old.format) result }
        ensures memory { result ≢ Err memory_fault }
        ensures good { OnOk result (IsGoodThroughout (change_of W.Output out.old out.new)) }
        ensures lasts { FailingLasts (change_of W.Output out.old out.new) }
        ensures untouched { spec.IsBeforeWriting self.old.number result → out.new ≡ out.old }
    {
        self.ended = true;
        if self.failed {
            return Err(Fault::failed(self.number));
        }
        match finish(out, self.number, &mut self.written, self.format) {
            Ok(()) => Ok(()),
            Err(fault) => {
                self.failed = true;
                Err(fault)
            }
        }
    }
}

/// Writes `bytes` to the output and adds their number to `written`.
#[inline(always)]
fn send<W: Output>(out: &mut W, number: usize, written: &mut u64, bytes: &[u8]) -> Result<(), Fault>
    requires some { 0 < length bytes.now }
    requires below { written.old < 2 ^ 62 }
    ensures sent { spec.Sends number (change_of W.Output out.old out.new) written.old bytes.now result }
    ensures counted { OnOk result (written.new ≡ written.old + length bytes.now) }
    ensures uncounted { OnErr result (written.new ≡ written.old) }
    ensures good { OnOk result (IsGoodThroughout (change_of W.Output out.old out.new)) }
    ensures lasts { FailingLasts (change_of W.Output out.old out.new) }
    ensures memory { result ≢ Err memory_fault }
    ensures untouched { result ≡ Err (too_long_fault number) → out.new ≡ out.old }
{
    write_all(out, number, *written, bytes)?;
    *written += bytes.len() as u64;
    Ok(())
}

/// Writes the mark of the end, if the format has one, and flushes the output.
fn finish<W: Output>(
    out: &mut W,
    number: usize,
    written: &mut u64,
    format: Format,
) -> Result<(), Fault>
    requires { written.old < 2 ^ 62 }
    ensures sent { spec.Sends number (change_of W.Output out.old out.new) written.old
        (spelling.file_end format) result }
    ensures counted { OnOk result (written.new ≡ written.old + length (spelling.file_end format)) }
    ensures below { written.new < 2 ^ 62 }
    ensures good { OnOk result (IsGoodThroughout (change_of W.Output out.old out.new)) }
    ensures lasts { FailingLasts (change_of W.Output out.old out.new) }
    ensures memory { result ≢ Err memory_fault }
    ensures untouched { result ≡ Err (too_long_fault number) → out.new ≡ out.old }
{
    match format {
        Format::Opl => flush(out, number, *written),
        Format::O5m | Format::O5c => match send(out, number, written, &[FILE_END]) {
            Ok(()) => flush(out, number, *written),
            Err(fault) => Err(fault),
        },
    }
}

/// Flushes the output, to which `written` bytes were written.
fn flush<W: Output>(out: &mut W, number: usize, written: u64) -> Result<(), Fault>
    ensures same { Appends (change_of W.Output out.old out.new) [] }
    ensures good { OnOk result (IsGoodThroughout (change_of W.Output out.old out.new)) }
    ensures lasts { FailingLasts (change_of W.Output out.old out.new) }
    ensures failed { IfErr result (λ fault. (fault ≡ write_fault number written) × (W.failed out.new ≡ true)) }
{
    match out.flush() {
        Ok(()) => Ok(()),
        Err(_) => Err(write_fault(number, written)),
    }
}

/// Writes the file of a history to `out`, and then flushes `out`. `number` is the number of the output.
///
/// # Errors
///
/// As for [`Sink::put`]. The bytes that `out` took are then a front of the file. After a `WriteFault` their number is
/// the fault's `place`.
pub fn write_history<W: Output>(
    alloc: Global,
    number: usize,
    format: Format,
    history: &History,
    out: &mut W,
) -> Result<(), Fault>
    ensures written { spec.WritesFile number (change_of W.Output out.old out.new)
        (spelling.spell format history.now) result }
    ensures good { OnOk result (IsGoodThroughout (change_of W.Output out.old out.new)) }
{
    let mut sink = Sink::new(alloc, format, number)?;
    put_all(&mut sink, history, out)
}

/// Begins the file of a new sink, writes the versions of a history, and ends the file.
fn put_all<W: Output>(sink: &mut Sink, history: &History, out: &mut W) -> Result<(), Fault>
    requires unused { sink.old ≡ spec.new_sink sink.old.format sink.old.number }
    ensures written { spec.WritesFile sink.old.number (change_of W.Output out.old out.new)
        (spelling.spell sink.old.format history.now) result }
    ensures good { OnOk result (IsGoodThroughout (change_of W.Output out.old out.new)) }
{
    sink.begin(out)?;
    'puts: for index in 0..history.len() {
        sink.put(out, history.get(index))?;
    }
    sink.end(out)
}

#[cfg(test)]
mod tests;
