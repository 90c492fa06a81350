//! Mirrors: copies of the map that take files and write files.
ghost use Rattle.std.specs.Prelude.{◌≡◌, IfOk, IfErr, MatchResult, OnErr};
ghost use Rattle.osm_files.specs.Fault.{memory_fault};
ghost use Rattle.osm_files.specs.Held.{HoldsSorted};
ghost use Rattle.osm_files.specs.Spell.{spell};
ghost use Rattle.osm_files.specs.SpellLaws.{AreVersions};
ghost use Rattle.osm_files.specs.declared.reason.Reason.TheVariants as reason;
ghost use Rattle.osm_mirror.specs.declared.fleet.keep.Keep.TheVariants as keep;
ghost use Rattle.osm_mirror.specs.fleet.Mirror as spec;

use crate::fleet::keep::{Keep, Taken};
use osm_files::{Fault, Format, Reason, SliceIn, VecOut, load_any, write_history};
use osm_merge::{absorb, absorb_newest};
use osm_model::{History, Memory};
use std::alloc::Global;
use std::marker::Model;

/// A copy of the map in memory. A full mirror holds the whole history that reached it; a latest mirror holds the newest
/// version of each object.
///
/// Whatever files mirrors take, in any order and with any repetitions, each mirror's snapshot is the snapshot of all
/// versions that reached it.
#[derive(Drop)]
pub struct Mirror {
    alloc: Global,
    keep: Keep,
    held: History,
}

impl Model for Mirror {
    ghost use Rattle.osm_mirror.specs.fleet.Mirror.{MirrorData, mirror_code, IsMirror};

    ghost Value = { MirrorData };

    ghost coded = { mirror_code };

    ghost view = { λ m. record { keep = m.keep; held = m.held } };

    ghost invariant = { λ m. IsMirror (record { keep = m.keep; held = m.held }) };
}

impl Mirror {
    /// A full mirror that holds nothing yet.
    pub fn new_full(alloc: Global) -> Mirror
        ensures { result ≡ spec.new_mirror keep.Full }
    {
        Mirror::new(alloc, Keep::Full)
    }

    /// A latest mirror that holds nothing yet.
    pub fn new_latest(alloc: Global) -> Mirror
        ensures { result ≡ spec.new_mirror keep.Latest }
    {
        Mirror::new(alloc, Keep::Latest)
    }

    /// A mirror that keeps what `keep` names, and holds nothing yet.
    pub(crate) fn new(alloc: Global, keep: Keep) -> Mirror
        ensures { result ≡ spec.new_mirror keep }
    {
        Mirror {
            alloc,
            keep,
            held: History::new(alloc),
        }
    }

    /// A new mirror of the same kind.
    pub(crate) fn new_like(&self) -> Mirror
        ensures { result ≡ spec.new_mirror self.now.keep }
    {
        Mirror::new(self.alloc, self.keep)
    }

    /// The history that the mirror holds.
    pub fn held(&self) -> &History
        ensures value { result.now ≡ self.now.held }
        ensures latest { spec.IsOwnSnapshot self.now }
    {
        &self.held
    }

    /// An equal mirror.
    ///
    /// # Errors
    ///
    /// Only out of memory.
    pub fn copy(&self) -> Result<Mirror, Memory>
        ensures { IfOk result (λ mirror. mirror ≡ self.now) }
    {
        Ok(Mirror {
            alloc: self.alloc,
            keep: self.keep,
            held: self.held.copy()?,
        })
    }

    /// Takes the versions of a file, which may have any format and any order of its versions. A full mirror then holds
    /// the union of its history and the file's set, a latest one the snapshot of that union.
    ///
    /// The mirror's own history isn't copied. The call first reads the file and allocates all memory, so a refusal
    /// changes nothing.
    ///
    /// # Errors
    ///
    /// The offset and the reason of the file's first faulty unit, with the input number 0; or `Memory`. The mirror is
    /// unchanged.
    pub fn take(&mut self, file: &[u8]) -> Result<Taken, Fault>
        ensures taken { IfOk result (spec.TakesFile file.now self.old self.new) }
        ensures refused { IfErr result (spec.WhyNotTaken file.now) }
        ensures unchanged { OnErr result (self.new ≡ self.old) }
    {
        let loaded = load_any(self.alloc, 0, SliceIn::new(file))?;
        let versions = loaded.history.len() as u64;
        self.absorb(loaded.history)?;
        Ok(Taken { versions })
    }

    /// Takes the versions of a history.
    fn absorb(&mut self, history: History) -> Result<(), Memory>
        requires { AreVersions history }
        ensures { MatchResult result (λ _. self.new ≡ spec.after_taking self.old history) (λ _. self.new ≡ self.old) }
    {
        match self.keep {
            Keep::Full => absorb(self.alloc, &mut self.held, history),
            Keep::Latest => absorb_newest(self.alloc, &mut self.held, history),
        }
    }

    /// The one file of the format `format` that holds the mirror's history.
    ///
    /// # Errors
    ///
    /// `Memory`; or `TooLong`, with the output number 1, if the file would have 2^62 bytes or more.
    pub fn write(&self, format: Format) -> Result<Vec<u8>, Fault>
        ensures written { IfOk result (λ file. file.items ≡ spell format self.now.held) }
        ensures accepted { IfOk result (λ file. HoldsSorted file.items self.now.held) }
        ensures refused { IfErr result (spec.WhyNotSpelled format self.now.held) }
    {
        let mut out = VecOut::new(self.alloc);
        match write_history(self.alloc, 1, format, &self.held, &mut out) {
            Ok(()) => Ok(out.into_vec()),
            Err(fault) => Err(unwritten(fault)),
        }
    }
}

/// The fault of a file that wasn't written to memory. A fault other than `TooLong` becomes `Memory`: an output in
/// memory fails only if memory runs out.
fn unwritten(fault: Fault) -> Fault
    ensures long { fault.reason ≡ reason.TooLong → result ≡ fault }
    ensures other { (fault.reason ≡ reason.TooLong → ⊥) → result ≡ memory_fault }
{
    match fault.reason {
        Reason::TooLong => fault,
        _ => Fault::memory(),
    }
}

#[cfg(test)]
mod tests;
