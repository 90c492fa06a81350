//! Texts in OPL lines, with their escapes.
ghost use Rattle.std.specs.Prelude.{◌≡◌, ◌⊎◌, ◌<◌, true, false, not, None, position};
ghost use Rattle.std.specs.Prelude.{length, string_bytes, option_copied, MatchOption, MatchResult, IfOk, IfSome};
ghost use Rattle.std.specs.List.{list_all};
ghost use Rattle.opl_line.specs.declared.bytes.cut.Delimiter.TheVariants.{Percents};
ghost use Rattle.opl_line.specs.declared.reason.OplReason.TheVariants.{Memory, BadText};
ghost use Rattle.opl_line.specs.Results.{OplReads};
ghost use Rattle.opl_line.specs.Delimiter.{is_end, split_first, split_all, pieces_of};
ghost use Rattle.opl_line.specs.Text as spec;

use crate::OplReason;
use crate::bytes::cut::Delimiter;
use crate::escape::scalar_of;
use osm_model::Text;
use std::alloc::Global;

/// The text that some bytes spell: raw characters and escapes.
///
/// # Errors
///
/// `BadText` if a character is raw that must be escaped, or if an escape is faulty, or `Memory`.
pub(crate) fn read_text(alloc: Global, text: &str) -> Result<Text, OplReason>
    ensures { OplReads (spec.reading_text text.now) result }
{
    let Some((raw, escapes)) = split_accepted(text) else {
        return Err(OplReason::BadText);
    };
    let Some(escape) = escapes else {
        return match Text::from_str(alloc, raw) {
            Ok(text) => Ok(text),
            Err(_) => Err(OplReason::Memory),
        };
    };
    let mut escapes = Some(escape);
    let mut out = String::from_str(alloc, raw)?;
    'escapes: while let Some(rest) = escapes {
        escapes = append_escape(&mut out, rest)?;
    }
    Ok(Text::from_string(out))
}

/// Appends the character of an escape, and the raw characters after the escape. `escape` is the text after the first
/// percent sign of the escape. Returns the text after the next percent sign, if there is one.
fn append_escape<'a>(out: &mut String, escape: &'a str) -> Result<Option<&'a str>, OplReason>
    ensures text { MatchResult result
        (λ more. spec.text_from (string_bytes out.old) (split_all (is_end Percents) escape.now)
        ≡ spec.text_from (string_bytes out.new) (pieces_of (is_end Percents) (option_copied more)))
        (λ reason. (reason ≡ Memory) ⊎ ((reason ≡ BadText)
        × (spec.text_from (string_bytes out.old) (split_all (is_end Percents) escape.now) ≡ None))) }
    ensures shorter { IfOk result (λ more. IfSome more (λ rest. length rest.now < length escape.now)) }
{
    let (digits, Some(rest)) = Delimiter::Percents.split(escape) else {
        return Err(OplReason::BadText);
    };
    let Some(character) = scalar_of(digits.as_bytes()) else {
        return Err(OplReason::BadText);
    };
    let Some((raw, more)) = split_accepted(rest) else {
        return Err(OplReason::BadText);
    };
    out.push(character)?;
    out.push_str(raw)?;
    Ok(more)
}

/// Splits a text at its first percent sign: the raw characters before it, and the text after it. Without a percent sign
/// they are the whole text and `None`. The result is `None` if the text before it has a byte that must be escaped.
fn split_accepted(text: &str) -> Option<(&str, Option<&str>)>
    ensures parts { MatchOption result
        (list_all spec.is_literal (split_first (is_end Percents) text.now).0 ≡ false)
        (λ parts. (list_all spec.is_literal parts.0.now ≡ true)
        × (split_first (is_end Percents) text.now ≡ (parts.0.now, option_copied parts.1))) }
    ensures shorter { IfSome result (λ parts. IfSome parts.1 (λ rest. length rest.now < length text.now)) }
{
    let bytes = text.as_bytes();
    let Some(end) = find_escape(bytes) else {
        return Some((text, None));
    };
    if bytes[end] != b'%' {
        return None;
    }
    Some((&text[..end], Some(&text[end + 1..])))
}

/// Whether a reader accepts a byte only as an escape. The writer escapes more characters than a reader requires.
fn must_be_escaped(byte: u8) -> bool
    ensures { result ≡ not (spec.is_literal byte) }
{
    matches!(byte, 0 | b'\t' | b'\n' | b'\r' | b' ' | b'%' | b',' | b'=')
}

/// The offset of the first byte that must be escaped.
fn find_escape(bytes: &[u8]) -> Option<usize>
    ensures { result ≡ position (λ byte. not (spec.is_literal byte)) bytes.now }
{
    bytes.iter().position(|byte| must_be_escaped(*byte))
}
