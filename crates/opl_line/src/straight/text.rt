//! Texts in their canonical form: characters that the writer leaves raw, and escapes as the writer spells them.
ghost use Rattle.std.specs.Prelude.{◌≡◌, ◌++◌, ◌∷◌, [], ◌+◌, ◌<◌, ◌≤◌, not, length, take, true, IfSome};
ghost use Rattle.std.specs.Char.{encode_utf8};
ghost use Rattle.std.specs.Bool.{OnTrue};
ghost use Rattle.std.specs.List.{list_all};
ghost use Rattle.osm_model.specs.Text.{is_text};
ghost use Rattle.osm_model.specs.Escape.{escape, escape_char, is_raw_byte};
ghost use Rattle.opl_line.specs.Straight.{AreAppended, AreRaw, IsRun};

use crate::bytes::cut::Delimiter;
use crate::bytes::scan::{ByteClass, find};
use crate::escape::scalar_of;
use osm_model::{Text, split_four_digits, strip_escaped};
use std::alloc::Global;
use std::simd::prelude::*;
use std::str;

/// The number of bytes that one step compares.
const TEXT_LANES: usize = 16;

/// The most bytes of the characters that are decoded in one run of escapes.
const RUN_BYTES: usize = 64;

/// A text in its canonical form, and the bytes after it. `None` for another form, and when out of memory.
#[inline(always)]
pub(crate) fn parse_text(alloc: Global, bytes: &[u8]) -> Option<(Text, &[u8])>
    ensures text { IfSome result (λ read. bytes.now ≡ escape read.0 ++ read.1.now) }
    ensures valid { IfSome result (λ read. is_text read.0 ≡ true) }
{
    let length = unescaped_length(bytes);
    if length < bytes.len() && needs_decoding(bytes[length]) {
        return decode_text(alloc, bytes);
    }
    // SAFETY: these bytes are raw characters of one byte, so they are ASCII.
    let raw = unsafe { str::from_utf8_unchecked(&bytes[..length]) };
    let Ok(text) = Text::from_raw(alloc, raw) else {
        return None;
    };
    Some((text, &bytes[length..]))
}

/// The number of bytes before the first that isn't a raw character by itself.
#[inline(always)]
fn unescaped_length(bytes: &[u8]) -> usize
    ensures within { result ≤ length bytes.now }
    ensures raw { list_all is_raw_byte (take result bytes.now) ≡ true }
{
    match find(WriterEscapes, bytes) {
        Some(end) => end,
        None => bytes.len(),
    }
}

/// The bytes that aren't raw characters by themselves: those that the writer escapes, and those of characters outside
/// ASCII. A reader accepts more raw bytes than the writer leaves raw.
#[derive(Clone, Copy, Debug)]
struct WriterEscapes;

impl ByteClass<TEXT_LANES> for WriterEscapes {
    ghost has = { λ _ byte. not (is_raw_byte byte) };

    #[inline(always)]
    fn marks(self, bytes: &[u8], from: usize) -> u64 {
        let lanes = Simd::<u8, TEXT_LANES>::from_slice(&bytes[from..]);
        let controls = lanes.simd_le(Simd::splat(b' '));
        let edges = controls | lanes.simd_ge(Simd::splat(0x7F));
        let percents = edges | lanes.simd_eq(Simd::splat(b'%'));
        let commas = percents | lanes.simd_eq(Simd::splat(b','));
        let equals = commas | lanes.simd_eq(Simd::splat(b'='));
        let others = equals | lanes.simd_eq(Simd::splat(b'@'));
        others.to_bitmask()
    }

    #[inline(always)]
    fn contains(self, byte: u8) -> bool {
        !is_raw_byte(byte)
    }
}

/// Whether a byte is a raw character by itself.
#[inline(always)]
fn is_raw_byte(byte: u8) -> bool
    ensures { result ≡ is_raw_byte byte }
{
    matches!(byte, 0x21..=0x24 | 0x26..=0x2B | 0x2D..=0x3C | 0x3E..=0x3F | 0x41..=0x7E)
}

/// Whether a text continues at `byte`, which isn't a raw character by itself: an escape or a character outside ASCII
/// may begin there.
#[inline(always)]
fn needs_decoding(byte: u8) -> bool {
    byte == b'%' || byte >= 0x80
}

/// A text with escapes or with characters outside ASCII, and the bytes after it.
#[inline(never)]
fn decode_text(alloc: Global, bytes: &[u8]) -> Option<(Text, &[u8])>
    ensures text { IfSome result (λ read. bytes.now ≡ escape read.0 ++ read.1.now) }
    ensures valid { IfSome result (λ read. is_text read.0 ≡ true) }
{
    let mut text = Text::new();
    let mut rest = bytes;
    'escapes: loop {
        let (raw, after) = split_raw(rest);
        if text.push_str(alloc, raw).is_err() {
            return None;
        }
        if after.is_empty() || after[0] != b'%' {
            return Some((text, after));
        }
        rest = push_escapes(alloc, &mut text, after)?;
    }
}

/// Appends the characters of the escapes that `bytes` begins with, or of the first of them, to `text`. Returns the
/// bytes after them. `None` for another form, and when out of memory.
fn push_escapes<'a>(alloc: Global, text: &mut Text, bytes: &'a [u8]) -> Option<&'a [u8]>
    ensures read { IfSome result (λ rest. AreAppended bytes.now text.old text.new rest.now) }
    ensures shorter { IfSome result (λ rest. length rest.now < length bytes.now) }
{
    let mut buffer = [0; RUN_BYTES];
    let (count, after) = decode_run(bytes, &mut buffer);
    if count > 0 {
        // SAFETY: these bytes are the UTF-8 of characters.
        let run = unsafe { str::from_utf8_unchecked(&buffer[..count]) };
        if text.push_str(alloc, run).is_err() {
            return None;
        }
        return Some(after);
    }
    let (character, after) = parse_escape(bytes)?;
    let mut buffer = [0; 4];
    let character = character.encode_utf8(&mut buffer);
    if text.push_str(alloc, character).is_err() {
        return None;
    }
    Some(after)
}

/// The raw characters that a text begins with, and the bytes after them.
fn split_raw(text: &[u8]) -> (&str, &[u8])
    ensures text { text.now ≡ result.0.now ++ result.1.now }
    ensures raw { AreRaw result.0.now }
{
    let mut end = 0;
    'characters: while end < text.len() {
        let width = unescaped_width(&text[end..]);
        if width == 0 {
            break 'characters;
        }
        end += width;
    }
    // SAFETY: these bytes are raw characters of one or two bytes, each tested in `unescaped_width`.
    let raw = unsafe { str::from_utf8_unchecked(&text[..end]) };
    (raw, &text[end..])
}

/// The number of bytes of the first character of a text, if it is raw, and else 0.
#[inline(always)]
fn unescaped_width(text: &[u8]) -> usize
    ensures within { result ≤ length text.now }
    ensures raw { AreRaw (take result text.now) }
{
    if text.is_empty() {
        return 0;
    }
    if is_raw_byte(text[0]) {
        return 1;
    }
    if text.len() > 1 && is_raw_pair(text[0], text[1]) {
        return 2;
    }
    0
}

/// Whether two bytes are a raw character.
#[inline(always)]
fn is_raw_pair(lead: u8, next: u8) -> bool
    ensures { OnTrue result (AreRaw (lead ∷ next ∷ [])) }
{
    match lead {
        0xC2 => next != 0xAD && matches!(next, 0xA1..=0xBF),
        0xC3..=0xD7 => matches!(next, 0x80..=0xBF),
        _ => false,
    }
}

/// Decodes the escapes of four digits that a text begins with, or the first of them, and puts their characters at the
/// front of `buffer`. Returns the number of bytes of the characters, and the bytes after the escapes.
fn decode_run<'a>(text: &'a [u8], buffer: &mut [u8; RUN_BYTES]) -> (usize, &'a [u8])
    ensures within { result.0 ≤ length buffer.new }
    ensures run { IsRun text.now (take result.0 buffer.new) result.1.now }
    ensures shorter { 0 < result.0 → length result.1.now < length text.now }
{
    let mut count = 0;
    let mut rest = text;
    'escapes: while count + 3 <= RUN_BYTES {
        let Some((character, next)) = split_four_digits(rest) else {
            return (count, rest);
        };
        count = put_character(buffer, count, character);
        rest = next;
    }
    (count, rest)
}

/// Puts a character from U+0600 to U+FFFF into `buffer` after the first `count` bytes. Returns the number of bytes up
/// to its end.
#[inline(always)]
fn put_character(buffer: &mut [u8], count: usize, character: char) -> usize
    requires wide { (0x600 ≤ character) × (character < 0x1_0000) }
    requires fits { count + 3 ≤ length buffer.old }
    ensures appended { take result buffer.new ≡ take count buffer.old ++ encode_utf8 character }
    ensures few { result ≤ count + 3 }
    ensures some { count < result }
    ensures size { length buffer.new ≡ length buffer.old }
{
    let code = u32::from(character);
    let last = 0x80 + (code % 0x40) as u8;
    if code < 0x800 {
        let end = put_byte(buffer, count, 0xC0 + (code / 0x40) as u8);
        return put_byte(buffer, end, last);
    }
    let end = put_byte(buffer, count, 0xE0 + (code / 0x1000) as u8);
    let end = put_byte(buffer, end, 0x80 + (code / 0x40 % 0x40) as u8);
    put_byte(buffer, end, last)
}

/// Puts a byte into `buffer` after the first `count` bytes.
#[inline(always)]
fn put_byte(buffer: &mut [u8], count: usize, byte: u8) -> usize
    requires fits { count < length buffer.old }
    ensures appended { take result buffer.new ≡ take count buffer.old ++ byte ∷ [] }
    ensures end { result ≡ count + 1 }
    ensures size { length buffer.new ≡ length buffer.old }
{
    buffer[count] = byte;
    count + 1
}

/// The character of the escape that a text begins with, and the bytes after it.
fn parse_escape(text: &[u8]) -> Option<(char, &[u8])>
    ensures text { IfSome result (λ read. text.now ≡ escape_char read.0 ++ read.1.now) }
    ensures valid { IfSome result (λ read. is_text (read.0 ∷ []) ≡ true) }
{
    let (_, rest) = text.split_first()?;
    let (digits, _) = Delimiter::Percents.split_bytes(rest);
    let character = scalar_of(digits)?;
    let next = strip_escaped(text, character)?;
    Some((character, next))
}
