//! The lines of plans.
ghost use Rattle.std.specs.Prelude.{◌≡◌, [], ◌∷◌, map, IfOk, IfErr};
ghost use Rattle.osm_files.specs.Format.{format_name};
ghost use Rattle.osm_mirror.specs.fleet.PlanLine.{WordsSay, LineSays, IsNumber, IsName};
ghost use Rattle.osm_mirror.specs.fleet.PlanFault.{IsNone, IsNoneOrMemory};

use crate::digits::are_digits;
use crate::fleet::event::Step;
use crate::fleet::keep::Keep;
use crate::fleet::plan_fault::PlanReason;
use osm_files::Format;
use osm_model::Text;
use std::alloc::Global;

/// The most digits of a mirror's number.
const MOST_DIGITS: usize = 9;

/// A file that a mirror writes once all steps are done.
#[derive(Debug, Drop)]
pub struct PlanWrite {
    /// The number of the mirror that is written, from 0.
    pub mirror: usize,
    /// The file's format.
    pub format: Format,
    /// The file's name.
    pub file: Text,
}

/// The part of a plan that a line spells.
#[derive(Drop)]
pub(crate) enum PlanLine {
    /// One more mirror.
    Mirror(Keep),
    /// A step.
    Step(Step),
    /// A file that a mirror writes at the end.
    Write(PlanWrite),
}

/// The part of a plan that `line` spells, which isn't empty.
///
/// # Errors
///
/// `BadWord` if the line spells no part, or `Memory`.
pub(crate) fn read_plan_line(alloc: Global, line: &str) -> Result<PlanLine, PlanReason>
    ensures says { IfOk result (LineSays line.now) }
    ensures nothing { IfErr result (IsNoneOrMemory (LineSays line.now)) }
{
    let words: Vec<&str> = line.split(' ').collect(alloc)?;
    read_words(alloc, words.as_slice())
}

/// The part that the words of a line spell.
fn read_words(alloc: Global, words: &[&str]) -> Result<PlanLine, PlanReason>
    ensures says { IfOk result (WordsSay (map (λ word. word.now) words.now)) }
    ensures nothing { IfErr result (IsNoneOrMemory (WordsSay (map (λ word. word.now) words.now))) }
{
    match words {
        [word] => read_one_word(*word),
        [word, number, last] => read_three_words(alloc, *word, *number, *last),
        [word, number, third, last] => read_four_words(alloc, *word, *number, *third, *last),
        _ => Err(PlanReason::BadWord),
    }
}

/// The part of a line of one word: `full` or `latest`.
fn read_one_word(word: &str) -> Result<PlanLine, PlanReason>
    ensures says { IfOk result (WordsSay (word.now ∷ [])) }
    ensures nothing { IfErr result (IsNone (WordsSay (word.now ∷ []))) }
{
    match word {
        "full" => Ok(PlanLine::Mirror(Keep::Full)),
        "latest" => Ok(PlanLine::Mirror(Keep::Latest)),
        _ => Err(PlanReason::BadWord),
    }
}

/// The part of a line of three words: `take M FILE` or `restart M FORMAT`.
fn read_three_words(
    alloc: Global,
    word: &str,
    number: &str,
    last: &str,
) -> Result<PlanLine, PlanReason>
    ensures says { IfOk result (WordsSay (word.now ∷ number.now ∷ last.now ∷ [])) }
    ensures nothing { IfErr result (IsNoneOrMemory (WordsSay (word.now ∷ number.now ∷ last.now ∷ []))) }
{
    let mirror = read_number(number)?;
    let step = match word {
        "take" => Step::Take {
            mirror,
            file: read_name(alloc, last)?,
        },
        "restart" => Step::Restart {
            mirror,
            format: read_format(last)?,
        },
        _ => return Err(PlanReason::BadWord),
    };
    Ok(PlanLine::Step(step))
}

/// The part of a line of four words: `pass M N FORMAT` or `write M FORMAT FILE`.
fn read_four_words(
    alloc: Global,
    word: &str,
    number: &str,
    third: &str,
    last: &str,
) -> Result<PlanLine, PlanReason>
    ensures says { IfOk result (WordsSay (word.now ∷ number.now ∷ third.now ∷ last.now ∷ [])) }
    ensures nothing { IfErr result (IsNoneOrMemory (WordsSay (word.now ∷ number.now ∷ third.now ∷ last.now ∷ []))) }
{
    let mirror = read_number(number)?;
    match word {
        "pass" => Ok(PlanLine::Step(Step::Pass {
            from: mirror,
            to: read_number(third)?,
            format: read_format(last)?,
        })),
        "write" => Ok(PlanLine::Write(PlanWrite {
            mirror,
            format: read_format(third)?,
            file: read_name(alloc, last)?,
        })),
        _ => Err(PlanReason::BadWord),
    }
}

/// The number of a mirror: 1 to 9 decimal digits.
fn read_number(word: &str) -> Result<usize, PlanReason>
    ensures number { IfOk result (IsNumber word.now) }
    ensures none { IfErr result (IsNone (IsNumber word.now)) }
{
    if word.len() > MOST_DIGITS || !are_digits(word) {
        return Err(PlanReason::BadWord);
    }
    match word.parse::<usize>() {
        Ok(number) => Ok(number),
        Err(_) => Err(PlanReason::BadWord),
    }
}

/// The format with the name `word`.
fn read_format(word: &str) -> Result<Format, PlanReason>
    ensures format { IfOk result (λ format. word.now ≡ format_name format) }
    ensures none { IfErr result (IsNone (λ format. word.now ≡ format_name format)) }
{
    match Format::named(word) {
        Some(format) => Ok(format),
        None => Err(PlanReason::BadWord),
    }
}

/// The name of a file: a word that isn't empty.
fn read_name(alloc: Global, word: &str) -> Result<Text, PlanReason>
    ensures name { IfOk result (IsName word.now) }
    ensures none { IfErr result (IsNoneOrMemory (IsName word.now)) }
{
    if word.is_empty() {
        return Err(PlanReason::BadWord);
    }
    Ok(Text::from_str(alloc, word)?)
}
