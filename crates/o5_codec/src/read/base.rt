//! Values read as differences to their bases.
ghost use Rattle.std.specs.Prelude.{◌≡◌, ◌<◌, length, IfOk};
ghost use Rattle.std.specs.Int.{w32, int_wrap};
ghost use Rattle.o5_codec.specs.Results.{O5Gives};
ghost use Rattle.o5_codec.specs.Base as spec;

use crate::O5Reason;
use crate::base::{CoordinateBase, IdBase, NumberBase};
use crate::read::number::{read_signed, strip_zero};
use osm_model::is_id;

impl IdBase {
    /// The id whose difference is at the front, and the bytes after it. The base moves to the id.
    ///
    /// # Errors
    ///
    /// `OutOfRange` if the sum is no id, else as for [`read_signed`].
    #[inline(always)]
    pub(crate) fn read<'a>(&mut self, bytes: &'a [u8]) -> Result<(i64, &'a [u8]), O5Reason>
        ensures value { O5Gives (λ x. (x.0, x.1.now)) (spec.read_difference (spec.moved_id self.old) bytes.now) result }
        ensures base { IfOk result (λ x. self.new ≡ x.0) }
        ensures shorter { IfOk result (λ x. length x.1.now < length bytes.now) }
    {
        let (difference, rest) = read_signed(bytes)?;
        let id = self.move_by(difference)?;
        Ok((id, rest))
    }

    /// The sum of the base and `difference`, which is an id. The base moves to the id.
    ///
    /// # Errors
    ///
    /// `OutOfRange` if the sum is no id.
    #[inline(always)]
    pub(crate) fn move_by(&mut self, difference: i64) -> Result<i64, O5Reason>
        ensures value { result ≡ spec.moved_id self.old difference }
        ensures base { IfOk result (λ id. self.new ≡ id) }
    {
        // The base is so near 0 that a sum that wraps around is no id.
        let id = self.id.wrapping_add(difference);
        if !is_id(id) {
            return Err(O5Reason::OutOfRange);
        }
        self.id = id;
        Ok(id)
    }
}

impl NumberBase {
    /// The number whose difference is at the front, and the bytes after it. The base moves to the number. Most
    /// differences are 0, since versions of one upload are mostly neighbours.
    ///
    /// # Errors
    ///
    /// `OutOfRange` if the sum is below 0 or above 4294967295, else as for [`read_signed`].
    #[inline(always)]
    pub(crate) fn read<'a>(&mut self, bytes: &'a [u8]) -> Result<(u32, &'a [u8]), O5Reason>
        ensures value { O5Gives (λ x. (x.0, x.1.now)) (spec.read_difference (spec.moved_number self.old) bytes.now)
            result }
        ensures base { IfOk result (λ x. self.new ≡ x.0) }
        ensures shorter { IfOk result (λ x. length x.1.now < length bytes.now) }
    {
        if let Some(rest) = strip_zero(bytes) {
            let number = self.move_by(0)?;
            return Ok((number, rest));
        }
        let (difference, rest) = read_signed(bytes)?;
        let number = self.move_by(difference)?;
        Ok((number, rest))
    }

    /// The sum of the base and `difference`. The base moves to the sum.
    ///
    /// # Errors
    ///
    /// `OutOfRange` if the sum is below 0 or above 4294967295.
    #[inline(always)]
    fn move_by(&mut self, difference: i64) -> Result<u32, O5Reason>
        ensures value { result ≡ spec.moved_number self.old difference }
        ensures base { IfOk result (λ number. self.new ≡ number) }
    {
        let sum = i64::from(self.number).wrapping_add(difference);
        if sum < 0 {
            return Err(O5Reason::OutOfRange);
        }
        let number = within_range(sum as u64)?;
        self.number = number;
        Ok(number)
    }
}

impl CoordinateBase {
    /// The coordinate whose difference is at the front, and the bytes after it. The base moves to the coordinate.
    ///
    /// # Errors
    ///
    /// `OutOfRange` if the difference is outside -4294967295 to 4294967295, else as for [`read_signed`].
    #[inline(always)]
    pub(crate) fn read<'a>(&mut self, bytes: &'a [u8]) -> Result<(i32, &'a [u8]), O5Reason>
        ensures value { O5Gives (λ x. (x.0, x.1.now)) (spec.read_difference (spec.moved_coordinate self.old) bytes.now)
            result }
        ensures base { IfOk result (λ x. self.new ≡ x.0) }
        ensures shorter { IfOk result (λ x. length x.1.now < length bytes.now) }
    {
        let (difference, rest) = read_signed(bytes)?;
        let coordinate = self.move_by(difference)?;
        Ok((coordinate, rest))
    }

    /// The sum of the base and `difference`, reduced modulo 2^32 to 32 bits. The base moves to the result.
    ///
    /// # Errors
    ///
    /// `OutOfRange` if the difference is outside -4294967295 to 4294967295.
    #[inline(always)]
    fn move_by(&mut self, difference: i64) -> Result<i32, O5Reason>
        ensures value { result ≡ spec.moved_coordinate self.old difference }
        ensures base { IfOk result (λ coordinate. self.new ≡ coordinate) }
    {
        if difference.unsigned_abs() >= 1 << 32 {
            return Err(O5Reason::OutOfRange);
        }
        let coordinate = reduced(i64::from(self.coordinate) + difference);
        self.coordinate = coordinate;
        Ok(coordinate)
    }
}

/// `number`, if it is at most 4294967295.
///
/// # Errors
///
/// `OutOfRange` if `number` is above.
pub(crate) fn within_range(number: u64) -> Result<u32, O5Reason>
    ensures { result ≡ spec.within_range number }
{
    if number < 1 << 32 {
        Ok(number as u32)
    } else {
        Err(O5Reason::OutOfRange)
    }
}

/// The signed number of 32 bits that is equal to `sum` modulo 2^32.
fn reduced(sum: i64) -> i32
    ensures { result ≡ int_wrap w32 sum }
{
    (sum.rem_euclid(1 << 32) as u32).cast_signed()
}
