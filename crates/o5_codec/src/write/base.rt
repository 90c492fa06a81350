//! Values written as differences to their bases.
ghost use Rattle.std.specs.Prelude.{◌≡◌, ◌++◌, true, pos, OnOk};
ghost use Rattle.osm_model.specs.Id.{is_id};
ghost use Rattle.o5_codec.specs.Shortest.{difference};

use crate::base::{CoordinateBase, IdBase, NumberBase};
use crate::write::number::append_signed;
use crate::write::set_buffer::SetBuffer;
use osm_model::Memory;

impl IdBase {
    /// Appends an id by its difference to the base. The base moves to the id.
    ///
    /// # Errors
    ///
    /// `Memory` when out of memory.
    #[inline(always)]
    pub(crate) fn append(&mut self, out: &mut SetBuffer, id: i64) -> Result<(), Memory>
        requires { is_id id ≡ true }
        ensures bytes { OnOk result (out.new ≡ out.old ++ difference self.old id) }
        ensures base { OnOk result (self.new ≡ id) }
    {
        append_signed(out, id - self.id)?;
        self.id = id;
        Ok(())
    }
}

impl NumberBase {
    /// Appends a number by its difference to the base. The base moves to the number.
    ///
    /// # Errors
    ///
    /// `Memory` when out of memory.
    #[inline(always)]
    pub(crate) fn append(&mut self, out: &mut SetBuffer, number: u32) -> Result<(), Memory>
        ensures bytes { OnOk result (out.new ≡ out.old ++ difference (pos self.old) (pos number)) }
        ensures base { OnOk result (self.new ≡ number) }
    {
        append_signed(out, i64::from(number) - i64::from(self.number))?;
        self.number = number;
        Ok(())
    }
}

impl CoordinateBase {
    /// Appends a coordinate by its difference to the base, which isn't reduced modulo 2^32. The base moves to the
    /// coordinate.
    ///
    /// # Errors
    ///
    /// `Memory` when out of memory.
    #[inline(always)]
    pub(crate) fn append(&mut self, out: &mut SetBuffer, coordinate: i32) -> Result<(), Memory>
        ensures bytes { OnOk result (out.new ≡ out.old ++ difference self.old coordinate) }
        ensures base { OnOk result (self.new ≡ coordinate) }
    {
        append_signed(out, i64::from(coordinate) - i64::from(self.coordinate))?;
        self.coordinate = coordinate;
        Ok(())
    }
}
