//! The rule for the end of an input.
ghost use Rattle.std.specs.Prelude.{◌≡◌, ◌++◌, slice_get, IfOk, IfSome, OnErr};
ghost use Rattle.osm_files.specs.declared.end_rule.EndRule.TheVariants as rule;
ghost use Rattle.osm_files.specs.EndRule.{last_seven};
ghost use Rattle.osm_files.specs.EndRule as spec;

use crate::file_runs::byte_at;
use crate::input::Broken;
use crate::o5::O5_START;
use crate::read_at::ReadAt;

/// The number of bytes of the mark.
const MARK_BYTES: usize = 7;

/// The line `# end` between two line feeds.
const END_MARK: [u8; MARK_BYTES] = *b"\n# end\n";

/// The line feed at the end of a line.
const LINE_FEED: [u8; 1] = *b"\n";

/// The last bytes of an input that has given none. A line feed is before the first line; the other bytes aren't in the
/// mark.
const START_BYTES: [u8; MARK_BYTES] = *b"\0\0\0\0\0\0\n";

/// How an OPL input has to end. An o5 input has its own end.
#[derive(Clone, Copy, Debug, PartialEq, Eq)]
pub enum EndRule {
    /// After any byte.
    Any,
    /// After a line feed, or without a byte.
    LineFeed,
    /// After the line `# end` and its line feed. The line begins after a line feed, or is the first one.
    Mark,
}

impl EndRule {
    /// The rule that the options `--whole` and `--ended` ask for.
    pub fn required(whole: bool, ended: bool) -> EndRule
        ensures { result ≡ spec.required_rule whole ended }
    {
        match (whole, ended) {
            (_, true) => EndRule::Mark,
            (true, false) => EndRule::LineFeed,
            (false, false) => EndRule::Any,
        }
    }

    /// The rule of a regular file, which needs no mark.
    pub fn of_file(self) -> EndRule
        ensures { result ≡ spec.rule_of_file self }
    {
        match self {
            EndRule::Any => EndRule::Any,
            EndRule::LineFeed | EndRule::Mark => EndRule::LineFeed,
        }
    }
}

/// What is known of the end of an input, of which some bytes were read.
#[derive(Clone, Copy, Debug, PartialEq, Eq)]
pub(crate) struct EndTest {
    /// The rule: the one of the caller, or none in an o5 file.
    rule: EndRule,
    /// Whether there was a byte.
    begun: bool,
    /// The last bytes that were read.
    last: [u8; MARK_BYTES],
}

impl EndTest {
    /// The test of an input by `rule` before its first byte.
    pub(crate) fn new(rule: EndRule) -> EndTest
        ensures { result ≡ spec.new_test rule }
    {
        EndTest {
            rule,
            begun: false,
            last: START_BYTES,
        }
    }

    /// The test after the input gave `bytes`.
    pub(crate) fn after(self, bytes: &[u8]) -> EndTest
        ensures { result ≡ spec.test_after self bytes.now }
    {
        EndTest {
            rule: rule_after(self.rule, self.begun, bytes),
            begun: self.begun || bytes.first().is_some(),
            last: last_after(self.last, bytes),
        }
    }

    /// Whether the end is missing, if no more bytes follow.
    pub(crate) fn lacks_end(&self) -> bool
        ensures { result ≡ spec.lacks_end self.now }
    {
        match self.rule {
            EndRule::Any => false,
            EndRule::LineFeed => !self.last.ends_with(&LINE_FEED),
            EndRule::Mark => !self.last.ends_with(&END_MARK),
        }
    }
}

/// The rule after the input gave `bytes`.
fn rule_after(rule: EndRule, begun: bool, bytes: &[u8]) -> EndRule
    ensures { result ≡ spec.rule_after rule begun (slice_get bytes.now 0) }
{
    match (begun, bytes.first()) {
        (false, Some(first)) if *first == O5_START => EndRule::Any,
        _ => rule,
    }
}

/// The last bytes of an input whose last bytes were `last` before it gave `bytes`.
fn last_after(last: [u8; MARK_BYTES], bytes: &[u8]) -> [u8; MARK_BYTES]
    ensures { result ≡ last_seven (last ++ bytes.now) }
{
    let added = bytes.len().min(MARK_BYTES);
    let kept = MARK_BYTES - added;
    let mut next = [0u8; MARK_BYTES];
    next[..kept].copy_from_slice(&last[added..]);
    next[kept..].copy_from_slice(&bytes[bytes.len() - added..]);
    next
}

/// Whether a regular file lacks the end that `end` asks for. An o5 file has its own end. An empty file needs none. The
/// call reads at most the first and the last byte.
///
/// # Errors
///
/// `Broken` if the file can't be read.
pub fn lacks_end_of_file<F: ReadAt>(file: &F, end: EndRule) -> Result<bool, Broken>
    ensures lacks { IfOk result (λ lacks. IfSome (F.bytes file.now) (λ all.
        lacks ≡ spec.lacks_its_end (spec.rule_of_file end) all)) }
    ensures broken { OnErr result (F.fails file.now) }
{
    match end {
        EndRule::Any => Ok(false),
        EndRule::LineFeed | EndRule::Mark => lacks_line_feed(file),
    }
}

/// Whether a file lacks the line feed at its end.
fn lacks_line_feed<F: ReadAt>(file: &F) -> Result<bool, Broken>
    ensures lacks { IfOk result (λ lacks. IfSome (F.bytes file.now) (λ all.
        lacks ≡ spec.lacks_its_end rule.LineFeed all)) }
    ensures broken { OnErr result (F.fails file.now) }
{
    let last = file.size()?.saturating_sub(1);
    let first_byte = byte_at(file, 0)?;
    let last_byte = byte_at(file, last)?;
    Ok(lacks_by_ends(first_byte, last_byte))
}

/// Whether a file with this first and this last byte, or with no bytes, lacks the line feed at its end.
fn lacks_by_ends(first: Option<u8>, last: Option<u8>) -> bool
    ensures { result ≡ spec.lacks_by_ends first last }
{
    match (first, last) {
        (Some(first), Some(last)) => first != O5_START && last != LINE_FEED[0],
        _ => false,
    }
}
