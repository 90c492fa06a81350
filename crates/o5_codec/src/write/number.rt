//! Numbers in their shortest form.
ghost use Rattle.std.specs.Prelude.{◌≡◌, ◌++◌, OnOk, OnErr};
ghost use Rattle.o5_codec.specs.Number.{unsigned_of};
ghost use Rattle.o5_codec.specs.Shortest.{shortest_number, shortest_signed};

use crate::write::block::Block;
use crate::write::set_buffer::SetBuffer;
use osm_model::Memory;

/// Appends an unsigned number.
///
/// # Errors
///
/// `Memory` when out of memory; nothing is appended then.
pub(crate) fn append_number(out: &mut Vec<u8>, number: u64) -> Result<(), Memory>
    ensures appended { OnOk result (out.new.items ≡ out.old.items ++ shortest_number number) }
    ensures unchanged { OnErr result (out.new.items ≡ out.old.items) }
{
    let mut block = Block::new();
    block.append_number(number);
    out.extend_from_slice(block.as_slice())?;
    Ok(())
}

/// Appends a signed number.
///
/// # Errors
///
/// As for [`append_number`].
#[inline(always)]
#[tactic(auto, unfolding(crate::specs::Shortest::shortest_signed))]
pub(crate) fn append_signed(out: &mut SetBuffer, number: i64) -> Result<(), Memory>
    ensures { OnOk result (out.new ≡ out.old ++ shortest_signed number) }
{
    out.append_number(to_unsigned(number))
}

/// The unsigned number that encodes a signed one: even numbers encode 0, 1, 2 and so on, odd numbers -1, -2 and so on.
fn to_unsigned(number: i64) -> u64
    ensures { result ≡ unsigned_of number }
{
    let twice = number.cast_unsigned().wrapping_mul(2);
    if number < 0 { u64::MAX - twice } else { twice }
}
