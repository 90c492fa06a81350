//! Reading the units of an input one by one, in whatever pieces its bytes come. A line that is longer than one read is
//! searched for its end once, so the time is linear in the file.
ghost use Rattle.std.specs.Prelude.{◌≡◌, ◌+◌, ◌<◌, ◌≤◌, ◌^◌, ◌⊎◌, true, false, None, Some, Ok, Err, []};
ghost use Rattle.std.specs.Prelude.{length, drop, take, option_map};
ghost use Rattle.std.specs.Prelude.{is_err, IfOk, IfErr, OnOk, OnErr, IsSome, if◌then◌else◌};
ghost use Rattle.osm_files.specs.EndRule.{new_test, lacks_end};
ghost use Rattle.osm_files.specs.Fault.{failed_fault, fault_at};
ghost use Rattle.osm_files.specs.Units as spec;
ghost use Rattle.osm_files.specs.Reading.{Finds, FindsLast};
ghost use Rattle.osm_files.specs.Source.{StepsOn};
ghost use Rattle.osm_files.specs.Load.{format_of, determines_format, is_o5m, DeterminesFormat};
ghost use Rattle.osm_files.specs.declared.format.Format.TheVariants.{O5m, O5c};
ghost use Rattle.osm_files.specs.Stream.{new_placed};
ghost use Rattle.osm_files.specs.Position.{Between, HasRead, StopsAt, FindsUnit, IsShortened, with_state, state_at};
ghost use Rattle.osm_files.specs.Position.{units_left};
ghost use Rattle.osm_files.specs.UnknownLine.{HoldsUnknown, DropsTested};
ghost use Rattle.osm_files.specs.declared.reason.Reason.TheVariants.{NoEnd};
ghost use Rattle.std.specs.Bool.{OnTrue};

use crate::end_rule::{EndRule, EndTest};
use crate::fault::{Fault, LENGTH_LIMIT};
use crate::format::Format;
use crate::input::Input;
use crate::o5::{HEADER_LENGTH, O5_START, O5M_HEADER};
use crate::placed::Placed;
use crate::read_buffer::ReadBuffer;
use crate::reason::Reason;
use crate::unit::{FileState, ReadUnit};
use crate::unknown_line::{TestedFront, begins_unknown};
use opl_line::find_line_end;
use osm_model::Version;
use std::alloc::Global;
use std::marker::Model;

/// The least number of bytes of a comment, or of a line that begins no version, that are dropped before the line's end
/// is read.
const LONG_LINE: usize = 65536;

/// A reading of the units of an input.
#[derive(Drop)]
pub(crate) struct Reading<R: Input> {
    alloc: Global,
    input: usize,
    reader: R,
    /// The bytes held: those that came and belong to no unit read so far.
    read_buffer: ReadBuffer,
    /// The offset in the file of the first byte held.
    offset: u64,
    /// The stage of the reading; `None` before the first byte, which determines the grammar.
    stage: Option<FileState>,
    /// Whether the bytes that came end as the rule says.
    end: EndTest,
    ended: bool,
    failed: bool,
}

impl<R: Input> Model for Reading<R> {
    ghost use Rattle.std.specs.Prelude.{◌≡◌, ◌+◌, ◌<◌, ◌≤◌, ◌^◌, length, drop, option_map, IfSome, false};
    ghost use Rattle.osm_files.specs.Reading.{FindsLast, state_data_of, IsGoodState};
    ghost use Rattle.osm_files.specs.Position.{Position};

    ghost Value = { Position R };

    ghost view = { λ r. record {
      input = r.input;
      offset = r.offset;
      held = r.read_buffer;
      rest = r.reader;
      stage = option_map state_data_of r.stage;
      end = r.end;
      ended = r.ended;
      failed = r.failed;
    } };

    ghost invariant = { λ r. (r.offset + length r.read_buffer < 2 ^ 62) ×
        (r.failed ≡ false → IfSome r.stage IsGoodState) };
}

impl<R: Input> Reading<R> {
    /// A reading at the start of the input with the number `input`, which has to end as `end` says.
    pub(crate) fn new(alloc: Global, input: usize, end: EndRule, reader: R) -> Reading<R>
        ensures { result ≡ record {
          input = input;
          offset = 0;
          held = [];
          rest = reader;
          stage = None;
          end = new_test end;
          ended = false;
          failed = false;
        } }
    {
        Reading {
            alloc,
            input,
            reader,
            read_buffer: ReadBuffer::new(alloc),
            offset: 0,
            stage: None,
            end: EndTest::new(end),
            ended: false,
            failed: false,
        }
    }

    /// Asks for about `chunk` bytes at a time from now on.
    pub(crate) fn set_chunk_size(&mut self, chunk: usize)
        ensures { self.new ≡ self.old }
    {
        self.read_buffer.set_chunk_size(chunk);
    }

    /// Reads more bytes, or detects that there are no more.
    #[inline(never)]
    fn fill(&mut self) -> Result<(), Fault>
        requires { self.old.ended ≡ false }
        ensures on { OnOk result (HasRead R.can_give self.old self.new) }
        ensures more { OnOk result ((self.new.ended ≡ true) ⊎ (length self.old.held < length self.new.held)) }
        ensures kept { OnOk result (take (length self.old.held) self.new.held ≡ self.old.held) }
        ensures stops { IfErr result (StopsAt R.can_give self.old) }
        ensures refused { OnErr result (self.new.failed ≡ true) }
        ensures input { self.new.input ≡ self.old.input }
    {
        let held = self.read_buffer.len();
        let read = self.offset + held as u64;
        let room = LENGTH_LIMIT - 1 - read;
        if room == 0 {
            return self.end_at_limit(read);
        }
        match self.read_buffer.read_more(&mut self.reader, room as usize) {
            Ok(0) => {
                self.ended = true;
                Ok(())
            }
            Ok(_) => {
                self.end = self.end.after(&self.read_buffer.as_slice()[held..]);
                Ok(())
            }
            Err(reason) => Err(self.refuse(read, reason)),
        }
    }

    /// Detects the end of an input that gave 2^62 - 1 bytes, the most that a file may have. One byte more is TooLong.
    fn end_at_limit(&mut self, read: u64) -> Result<(), Fault>
        requires unended { self.old.ended ≡ false }
        requires offset { read ≡ self.old.offset + length self.old.held }
        requires limit { read + 1 ≡ 2 ^ 62 }
        ensures on { OnOk result (HasRead R.can_give self.old self.new) }
        ensures ended { OnOk result (self.new.ended ≡ true) }
        ensures held { OnOk result (self.new.held ≡ self.old.held) }
        ensures stops { IfErr result (StopsAt R.can_give self.old) }
        ensures refused { OnErr result (self.new.failed ≡ true) }
        ensures input { self.new.input ≡ self.old.input }
    {
        let mut byte = [0u8; 1];
        match self.reader.read(&mut byte) {
            Ok(0) => {
                self.ended = true;
                Ok(())
            }
            Ok(_) => Err(self.refuse(LENGTH_LIMIT, Reason::TooLong)),
            Err(_) => Err(self.refuse(read, Reason::ReadFault)),
        }
    }

    /// Sets the stage by the first byte of the file, if it was read.
    ///
    /// This is a function of its own only for the optimizer: it runs once in a file, and inlined it would cost 12
    /// stores for each version. Three such functions of this crate bring 2 percent of a merge of o5m files.
    #[inline(never)]
    fn detect_grammar(&mut self)
        requires { self.old.stage ≡ None }
        ensures { self.new ≡ with_state self.old }
    {
        if !self.read_buffer.as_slice().is_empty() {
            self.stage = Some(FileState::of(self.alloc, self.read_buffer.as_slice()));
        }
    }

    /// Reads the whole unit at the front of the bytes held, if there is one. No unit is whole in the first `searched`
    /// of the bytes held.
    #[inline(always)]
    fn read_held(&mut self, searched: usize) -> Result<Option<ReadUnit>, Reason>
        requires good { self.old.failed ≡ false }
        requires within { searched ≤ length self.old.held }
        requires none { spec.unit_at (state_at self.old) (take searched self.old.held) ≡ None }
        ensures found { FindsUnit self.old result self.new }
        ensures bound { self.old.offset + length self.old.held < 2 ^ 62 }
        ensures offset { self.new.offset ≡ self.old.offset }
        ensures input { self.new.input ≡ self.old.input }
    {
        if self.stage.is_none() {
            self.detect_grammar();
        }
        let Some(stage) = &mut self.stage else {
            return Ok(None);
        };
        match stage.read(self.alloc, self.read_buffer.as_slice(), searched) {
            Ok(unit) => Ok(unit),
            Err(reason) => {
                self.failed = true;
                Err(reason)
            }
        }
    }

    /// Drops all but the first byte of a long comment whose end isn't held. No version depends on its bytes, so a
    /// comment of 300 MB takes no more memory than one of 64 KB.
    #[inline(never)]
    fn shorten_comment(&mut self)
        ensures { (self.new ≡ self.old) ⊎ IsShortened self.old self.new }
    {
        let held = self.read_buffer.len();
        if held < LONG_LINE || self.read_buffer.as_slice()[0] != b'#' {
            return;
        }
        if let Some(FileState::Lines(_)) = &self.stage {
            self.offset += (held - 1) as u64;
            self.read_buffer.truncate(1);
        }
    }

    /// Whether the bytes held begin a long line that begins no version.
    #[inline(never)]
    fn holds_unknown(&self) -> bool
        ensures { OnTrue result (HoldsUnknown self.now) }
    {
        let held = self.read_buffer.as_slice();
        if held.len() < LONG_LINE || !begins_unknown(held[0]) {
            return false;
        }
        matches!(&self.stage, Some(FileState::Lines(_)))
    }

    /// Tests the first bytes held, which follow a front with the result `front`, and drops them. Returns the result for
    /// the front with these bytes.
    fn drop_tested(&mut self, front: TestedFront) -> TestedFront
        ensures dropped { DropsTested self.old front result self.new }
        ensures bound { self.old.offset + length self.old.held < 2 ^ 62 }
    {
        let (front, size) = front.extend(self.read_buffer.as_slice());
        self.read_buffer.skip(size);
        self.offset += size as u64;
        front
    }

    /// Refuses the line at the front of the bytes held, which begins no version, once its end or the input's end was
    /// read. A line of 700 MB takes no more memory than one of 64 KB.
    #[inline(never)]
    fn refuse_unknown(&mut self) -> Fault
        requires good { self.old.failed ≡ false }
        requires unended { self.old.ended ≡ false }
        requires unknown { HoldsUnknown self.old }
        requires nothing { spec.unit_at (state_at self.old) self.old.held ≡ None }
        ensures step { StepsOn R.can_give self.old (Err result) self.new }
        ensures failed { self.new.failed ≡ true }
        ensures input { self.new.input ≡ self.old.input }
    {
        let start = self.offset;
        let mut front = TestedFront::Utf8;
        'pieces: loop {
            front = self.drop_tested(front);
            if let Err(fault) = self.fill() {
                return fault;
            }
            let held = self.read_buffer.as_slice();
            if let Some(size) = find_line_end(held) {
                let reason = front.reason(&held[..size]);
                return self.refuse(start, Reason::from(reason));
            }
            if self.ended {
                let reason = front.reason(held);
                return self.refuse_last(start, Reason::from(reason));
            }
        }
    }

    /// Refuses the last line of an ended input for `reason`, or as NoEnd if the input lacks its end.
    fn refuse_last(&mut self, start: u64, reason: Reason) -> Fault
        ensures failed { self.new ≡ record self.old { failed = true } }
        ensures cut { lacks_end self.old.end ≡ true
            → result ≡ fault_at self.old.input (self.old.offset + length self.old.held) NoEnd }
        ensures uncut { lacks_end self.old.end ≡ false → result ≡ fault_at self.old.input start reason }
    {
        match self.check_end() {
            Ok(()) => self.refuse(start, reason),
            Err(fault) => fault,
        }
    }

    /// Passes a unit of the bytes held, and returns the version that it holds, if any.
    fn pass(&mut self, unit: ReadUnit) -> Option<Placed>
        requires { unit.size ≤ length self.old.held }
        ensures gone { self.new ≡ record self.old {
          offset = self.old.offset + unit.size;
          held = drop unit.size self.old.held;
        } }
        ensures gave { result ≡ option_map (new_placed self.old.offset) unit.version }
    {
        let offset = self.offset;
        self.read_buffer.skip(unit.size);
        self.offset += unit.size as u64;
        match unit.version {
            None => None,
            Some(version) => Some(Placed { offset, version }),
        }
    }

    /// Refuses an ended input that lacks its end.
    fn check_end(&mut self) -> Result<(), Fault>
        ensures ends { OnOk result (lacks_end self.old.end ≡ false) }
        ensures same { OnOk result (self.new ≡ self.old) }
        ensures lacks { OnErr result (lacks_end self.old.end ≡ true) }
        ensures failed { OnErr result (self.new ≡ record self.old { failed = true }) }
        ensures fault { IfErr result (λ fault.
            fault ≡ fault_at self.old.input (self.old.offset + length self.old.held) NoEnd) }
    {
        if self.end.lacks_end() {
            let length = self.offset + self.read_buffer.len() as u64;
            return Err(self.refuse(length, Reason::NoEnd));
        }
        Ok(())
    }

    /// The version of the last bytes of an ended input, if no unit is whole.
    #[inline(never)]
    fn finish_stage(&self) -> Result<Option<Version>, Reason>
        requires { self.now.stage ≡ None → self.now.held ≡ [] }
        ensures { FindsLast (spec.last_at (state_at self.now) self.now.held) result }
    {
        match &self.stage {
            None => Ok(None),
            Some(stage) => stage.finish(self.alloc, self.read_buffer.as_slice()),
        }
    }

    /// Passes the last bytes of an ended input, and returns their version, if no unit is whole. The input ends as its
    /// rule says.
    fn finish_last(&mut self) -> Result<Option<Placed>, Fault>
        requires good { self.old.failed ≡ false }
        requires ended { self.old.ended ≡ true }
        requires uncut { lacks_end self.old.end ≡ false }
        requires seen { self.old.stage ≡ None → self.old.held ≡ [] }
        requires nothing { spec.unit_at (state_at self.old) self.old.held ≡ None }
        requires bound { self.old.offset + length self.old.held < 2 ^ 62 }
        ensures step { StepsOn R.can_give self.old result self.new }
        ensures failed { self.new.failed ≡ is_err result }
        ensures fewer { IfOk result (λ given. IsSome given → units_left self.new < units_left self.old) }
        ensures onward { OnOk result (self.old.offset ≤ self.new.offset) }
        ensures input { self.new.input ≡ self.old.input }
    {
        match self.finish_stage() {
            Ok(version) => {
                let size = self.read_buffer.len();
                Ok(self.pass(ReadUnit { size, version }))
            }
            Err(reason) => Err(self.refuse(self.offset, reason)),
        }
    }

    /// Passes the last bytes of an ended input, and returns their version, if no unit is whole.
    fn finish_input(&mut self) -> Result<Option<Placed>, Fault>
        requires good { self.old.failed ≡ false }
        requires ended { self.old.ended ≡ true }
        requires seen { self.old.stage ≡ None → self.old.held ≡ [] }
        requires nothing { spec.unit_at (state_at self.old) self.old.held ≡ None }
        requires bound { self.old.offset + length self.old.held < 2 ^ 62 }
        ensures step { StepsOn R.can_give self.old result self.new }
        ensures failed { self.new.failed ≡ is_err result }
        ensures fewer { IfOk result (λ given. IsSome given → units_left self.new < units_left self.old) }
        ensures onward { OnOk result (self.old.offset ≤ self.new.offset) }
        ensures input { self.new.input ≡ self.old.input }
    {
        self.check_end()?;
        self.finish_last()
    }

    /// The next version; `None` at the end and ever after.
    ///
    /// # Errors
    ///
    /// The fault of the next unit, or `Memory`. After an error each call returns `Failed`.
    #[inline(always)]
    pub(crate) fn next(&mut self) -> Result<Option<Placed>, Fault>
        ensures step { StepsOn R.can_give self.old result self.new }
        ensures again { self.old.failed ≡ true → result ≡ Err (failed_fault self.old.input) }
        ensures failed { self.new.failed ≡ is_err result }
        ensures fewer { IfOk result (λ given. IsSome given → units_left self.new < units_left self.old) }
        ensures onward { OnOk result (self.old.offset ≤ self.new.offset) }
        ensures input { self.new.input ≡ self.old.input }
    {
        if self.failed {
            return Err(Fault::failed(self.input));
        }
        // No unit is whole in the first `searched` of the bytes held.
        let mut searched = 0;
        'units: loop {
            match self.read_held(searched) {
                Ok(Some(unit)) => match self.pass(unit) {
                    Some(given) => return Ok(Some(given)),
                    None => searched = 0,
                },
                Ok(None) if self.ended => return self.finish_input(),
                Ok(None) if self.holds_unknown() => return Err(self.refuse_unknown()),
                Ok(None) => {
                    self.shorten_comment();
                    searched = self.read_buffer.len();
                    self.fill()?;
                }
                Err(reason) => return Err(self.refuse(self.offset, reason)),
            }
        }
    }

    /// The format of the file, which its first bytes determine. The call comes before any unit is passed.
    ///
    /// # Errors
    ///
    /// The fault of the first bytes, or `Memory`. After an error [`Reading::next`] returns `Failed`.
    pub(crate) fn format(&mut self) -> Result<Format, Fault>
        requires at_first { self.old.offset ≡ 0 }
        requires unseen { self.old.stage ≡ None }
        requires good { self.old.failed ≡ false }
        ensures shown { IfOk result (λ format. Between R.can_give self.old self.new (DeterminesFormat format)) }
        ensures good { OnOk result (self.new.failed ≡ false) }
        ensures refused { IfErr result (λ fault. StepsOn R.can_give self.old (Err fault) self.new) }
    {
        'reads: loop {
            let held = self.read_buffer.as_slice();
            if determines_format(held) {
                return Ok(format_of(held));
            }
            if self.ended {
                return Ok(format_of(held));
            }
            self.fill()?;
        }
    }

    /// Takes back a version that isn't needed any more. The next one may be made in its memory.
    #[inline(always)]
    pub(crate) fn reuse(&mut self, version: Version)
        ensures { self.new ≡ self.old }
    {
        match &mut self.stage {
            Some(FileState::Lines(lines)) => lines.reuse(version),
            Some(FileState::DataSets(decoder)) => decoder.reuse(version),
            _ => {}
        }
    }

    /// Returns the fault for `reason` at `offset`, and makes every later call fail.
    pub(crate) fn refuse(&mut self, offset: u64, reason: Reason) -> Fault
        ensures failed { self.new ≡ record self.old { failed = true } }
        ensures fault { result ≡ fault_at self.old.input offset reason }
    {
        self.failed = true;
        Fault::at(self.input, offset, reason)
    }
}

/// Whether `bytes` determine the format of a file that begins with them.
fn determines_format(bytes: &[u8]) -> bool
    ensures { result ≡ determines_format bytes.now }
{
    match bytes.first() {
        None => false,
        Some(first) => *first != O5_START || bytes.len() >= HEADER_LENGTH,
    }
}

/// The format of a file that begins with `bytes`.
fn format_of(bytes: &[u8]) -> Format
    ensures { result ≡ format_of bytes.now }
{
    match bytes.first() {
        Some(first) if *first == O5_START => o5_format(bytes),
        _ => Format::Opl,
    }
}

/// The format of an o5 file that begins with `bytes`.
fn o5_format(bytes: &[u8]) -> Format
    ensures { result ≡ (if is_o5m bytes.now then O5m else O5c) }
{
    if bytes.len() >= HEADER_LENGTH && &bytes[..HEADER_LENGTH] == O5M_HEADER.as_slice() {
        Format::O5m
    } else {
        Format::O5c
    }
}
