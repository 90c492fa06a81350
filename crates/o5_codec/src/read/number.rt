//! Numbers in groups of seven bits. A number of at most five groups is read by straight code, others by a loop.
ghost use Rattle.std.specs.Prelude.{◌≡◌, ◌<◌, length, pos, Ok, IfOk, IfSome};
ghost use Rattle.o5_codec.specs.Results.{O5Gives};
ghost use Rattle.o5_codec.specs.Number.{number_at, signed_at, signed_of};

use crate::O5Reason;

/// The continuation bit of the first group, as a part of the sum of the groups.
const CONTINUATION_BITS_1: u64 = 128;

/// The continuation bits of the first two groups.
const CONTINUATION_BITS_2: u64 = CONTINUATION_BITS_1 + 128 * 128;

/// The continuation bits of the first three groups.
const CONTINUATION_BITS_3: u64 = CONTINUATION_BITS_2 + 128 * 16_384;

/// The continuation bits of the first four groups.
const CONTINUATION_BITS_4: u64 = CONTINUATION_BITS_3 + 128 * 2_097_152;

/// The unsigned number at the front, and the bytes after it.
///
/// # Errors
///
/// `BadNumber` if it isn't ended, has more than 10 bytes, or is 2^64 or more.
#[inline(always)]
pub fn read_number(bytes: &[u8]) -> Result<(u64, &[u8]), O5Reason>
    ensures value { O5Gives (λ x. (x.0, x.1.now)) (number_at bytes.now) result }
    ensures shorter { IfOk result (λ x. length x.1.now < length bytes.now) }
{
    match read_few_groups(bytes) {
        Some(read) => Ok(read),
        None => read_any_groups(bytes),
    }
}

/// The unsigned number at the front, and the bytes after it, if the number is ended and has at most five groups.
#[inline(always)]
fn read_few_groups(bytes: &[u8]) -> Option<(u64, &[u8])>
    ensures value { IfSome result (λ x. number_at bytes.now ≡ Ok (x.0, x.1.now)) }
    ensures shorter { IfSome result (λ x. length x.1.now < length bytes.now) }
{
    if bytes.is_empty() {
        return None;
    }
    let one = u64::from(bytes[0]);
    if bytes[0] < 128 {
        return Some((one, &bytes[1..]));
    }
    if bytes.len() < 2 {
        return None;
    }
    let two = one + u64::from(bytes[1]) * 128;
    if bytes[1] < 128 {
        return Some((two - CONTINUATION_BITS_1, &bytes[2..]));
    }
    if bytes.len() < 3 {
        return None;
    }
    let three = two + u64::from(bytes[2]) * 16_384;
    if bytes[2] < 128 {
        return Some((three - CONTINUATION_BITS_2, &bytes[3..]));
    }
    if bytes.len() < 4 {
        return None;
    }
    let four = three + u64::from(bytes[3]) * 2_097_152;
    if bytes[3] < 128 {
        return Some((four - CONTINUATION_BITS_3, &bytes[4..]));
    }
    if bytes.len() < 5 {
        return None;
    }
    let five = four + u64::from(bytes[4]) * 268_435_456;
    if bytes[4] < 128 {
        return Some((five - CONTINUATION_BITS_4, &bytes[5..]));
    }
    None
}

/// The unsigned number of any length at the front, and the bytes after it.
///
/// This function exists only for the optimizer: it takes the result of `read_groups` apart, so that no space for that
/// result is cleared when `read_few_groups` reads the number. Five such functions of this crate bring 5 percent of a
/// merge of o5m files.
#[inline(always)]
fn read_any_groups(bytes: &[u8]) -> Result<(u64, &[u8]), O5Reason>
    ensures value { O5Gives (λ x. (x.0, x.1.now)) (number_at bytes.now) result }
    ensures shorter { IfOk result (λ x. length x.1.now < length bytes.now) }
{
    let (number, rest) = read_groups(bytes)?;
    Ok((number, rest))
}

/// The unsigned number of any length at the front, read group by group, and the bytes after it.
#[cold]
#[inline(never)]
fn read_groups(bytes: &[u8]) -> Result<(u64, &[u8]), O5Reason>
    ensures value { O5Gives (λ x. (x.0, x.1.now)) (number_at bytes.now) result }
    ensures shorter { IfOk result (λ x. length x.1.now < length bytes.now) }
{
    let mut value: u64 = 0;
    let mut weight: u64 = 1;
    for i in 0..9usize {
        if i == bytes.len() {
            return Err(O5Reason::BadNumber);
        }
        let byte = u64::from(bytes[i]);
        if byte < 128 {
            return Ok((value + byte * weight, &bytes[i + 1..]));
        }
        value += (byte - 128) * weight;
        weight *= 128;
    }
    if bytes.len() == 9 {
        return Err(O5Reason::BadNumber);
    }
    let last = u64::from(bytes[9]);
    if last > 1 {
        return Err(O5Reason::BadNumber);
    }
    Ok((value + last * weight, &bytes[10..]))
}

/// Counts the numbers that end within `bytes`.
pub(crate) fn count_ended(bytes: &[u8]) -> usize {
    bytes.iter().filter(|byte| **byte < 128).count()
}

/// The signed number at the front, and the bytes after it.
///
/// # Errors
///
/// As for [`read_number`].
#[inline(always)]
#[tactic(auto, unfolding(crate::specs::Number::signed_at))]
pub fn read_signed(bytes: &[u8]) -> Result<(i64, &[u8]), O5Reason>
    ensures value { O5Gives (λ x. (x.0, x.1.now)) (signed_at bytes.now) result }
    ensures shorter { IfOk result (λ x. length x.1.now < length bytes.now) }
{
    let (number, rest) = read_number(bytes)?;
    Ok((to_signed(number), rest))
}

/// The bytes after the first one, if that is the signed number 0 in its shortest form.
#[inline(always)]
#[tactic(auto, using(crate::proofs::NumberLaws::zero_read))]
pub(crate) fn strip_zero(bytes: &[u8]) -> Option<&[u8]>
    ensures value { IfSome result (λ rest. signed_at bytes.now ≡ Ok (pos 0, rest.now)) }
    ensures shorter { IfSome result (λ rest. length rest.now < length bytes.now) }
{
    let (first, rest) = bytes.split_first()?;
    if *first == 0 { Some(rest) } else { None }
}

/// The signed number that an unsigned one encodes: even numbers encode 0, 1, 2 and so on, odd numbers -1, -2 and so on.
#[inline(always)]
fn to_signed(number: u64) -> i64
    ensures { result ≡ signed_of number }
{
    let half = (number / 2) as i64;
    if number % 2 == 0 { half } else { -1 - half }
}
