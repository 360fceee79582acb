ghost use Rattle.std.specs.Prelude.{◌≡◌, ◌<◌, ◌-◌, ◌^◌, IfOk, OnOk, count_by, length};
ghost use Rattle.gpt_descriptors.specs.Entries.{l1_entry};
ghost use Rattle.gpt_descriptors.specs.Places.{word_count};
ghost use Rattle.gpt_descriptors.specs.declared.size.Size.TheVariants as size;
ghost use Rattle.scenario_text.specs.Calls.{AreAnswersOf};
ghost use Rattle.report_text.specs.RunText.{FitsScenario};
ghost use Rattle.report_text.specs.LoadText.{counted_name, is_via, is_counted, count_in, left_in, contiguous_in, raises_in, count_line, answer_counts, word_counts, report_of_load};
ghost use Rattle.report_text.specs.InnerAdding.{Adds};
ghost use Rattle.report_text.specs.InnerSizes.{size_in, counted_size, sizes_of};

use crate::callers::call_count;
use crate::state::{generations_of, words_of_tables};
use gpi_values::Listed;
use gpt_descriptors::{Geometry, L1Entry, Size, decode_l1};
use history::{Answer, Outcome, Via};
use scenario_text::{Scenario, Script};
use std::alloc::{AllocError, Global};

/// The answers that the summary of a load counts, each under its name.
#[derive(Clone, Copy)]
enum Counted {
    Done,
    Perm,
    Worn,
    Inval,
    Unknown,
    Granted,
    Fault,
    Hit,
    Cold,
    Missed,
}

/// The names, in the order of their lines.
const NAMES: [Counted; 10] = [
    Counted::Done,
    Counted::Perm,
    Counted::Worn,
    Counted::Inval,
    Counted::Unknown,
    Counted::Granted,
    Counted::Fault,
    Counted::Hit,
    Counted::Cold,
    Counted::Missed,
];

fn name_of_counted(counted: Counted) -> &'static str
    ensures { result.now ≡ counted_name counted }
{
    match counted {
        Counted::Done => "done",
        Counted::Perm => "perm",
        Counted::Worn => "worn",
        Counted::Inval => "inval",
        Counted::Unknown => "unknown",
        Counted::Granted => "granted",
        Counted::Fault => "fault",
        Counted::Hit => "hit",
        Counted::Cold => "cold",
        Counted::Missed => "missed",
    }
}

/// Whether an access that found its GPI so is counted under this name.
fn counts_via(counted: Counted, via: Via) -> bool
    ensures { result ≡ is_via counted via }
{
    match via {
        Via::Still => false,
        Via::Hit { .. } => matches!(counted, Counted::Hit),
        Via::Cold { .. } => matches!(counted, Counted::Cold),
        Via::Missed { .. } => matches!(counted, Counted::Missed),
    }
}

/// Whether an answer is counted under this name.
fn counts(counted: Counted, answer: &Answer) -> bool
    ensures { result ≡ is_counted counted answer.now }
{
    match answer {
        Answer::Done(_) => matches!(counted, Counted::Done),
        Answer::Perm(_) => matches!(counted, Counted::Perm),
        Answer::Worn(..) => matches!(counted, Counted::Worn),
        Answer::Inval => matches!(counted, Counted::Inval),
        Answer::Unknown => matches!(counted, Counted::Unknown),
        Answer::Seen(access) => match counted {
            Counted::Granted => access.allowed,
            Counted::Fault => !access.allowed,
            _ => counts_via(counted, access.via),
        },
    }
}

/// How many answers of one caller are counted under this name.
fn count_own(counted: Counted, answers: &[Answer]) -> usize
    ensures { result ≡ count_by (is_counted counted) answers.now }
{
    answers
        .iter()
        .filter(|answer| counts(counted, answer))
        .count()
}

/// How many answers of all callers are counted under this name.
fn count_all(counted: Counted, answers: &[Listed<Answer>]) -> u128
    ensures { result ≡ count_in counted answers.now }
{
    let mut total = 0u128;
    for k in 0..answers.len() {
        total += count_own(counted, answers[k].as_slice()) as u128;
    }
    total
}

/// How many calls of all callers have no answer.
fn count_left(scripts: &[Script], answers: &[Listed<Answer>]) -> u128
    requires { AreAnswersOf scripts.now answers.now }
    ensures { result ≡ left_in scripts.now answers.now }
{
    let mut total = 0u128;
    for k in 0..scripts.len() {
        let left = call_count(&scripts[k]) - answers[k].as_slice().len();
        total += left as u128;
    }
    total
}

/// How many L1 words are contiguous descriptors, by size.
#[derive(Clone, Copy)]
struct Contiguous {
    two: usize,
    thirty_two: usize,
    five_twelve: usize,
}

impl Contiguous {
    /// Counts one more word, the contiguous descriptor of this size if it is one.
    fn count(&mut self, size: Option<Size>)
        requires two { self.old.two < 2 ^ 64 - 1 }
        requires thirty_two { self.old.thirty_two < 2 ^ 64 - 1 }
        requires five_twelve { self.old.five_twelve < 2 ^ 64 - 1 }
        ensures { self.new ≡ counted_size size self.old }
    {
        match size {
            Some(Size::Two) => self.two += 1,
            Some(Size::ThirtyTwo) => self.thirty_two += 1,
            Some(Size::FiveTwelve) => self.five_twelve += 1,
            None => {}
        }
    }
}

/// The size of the contiguous descriptor that an L1 word is, if it is one.
fn contiguous_size(word: u64) -> Option<Size>
    ensures { result ≡ size_in (l1_entry word) }
{
    match decode_l1(word) {
        Some(L1Entry::Contig(size, _)) => Some(size),
        _ => None,
    }
}

/// How many of these L1 words are contiguous descriptors, by size, in one pass. A word that is the
/// one before it once more isn't decoded again.
fn count_sizes(words: &[u64]) -> Contiguous
    ensures { result ≡ sizes_of words.now }
{
    let mut counts = Contiguous {
        two: 0,
        thirty_two: 0,
        five_twelve: 0,
    };
    let mut last = 0;
    let mut size = contiguous_size(last);
    for k in 0..words.len() {
        if words[k] != last {
            last = words[k];
            size = contiguous_size(last);
        }
        counts.count(size);
    }
    counts
}

/// How many L1 words of all tables are contiguous descriptors, by size.
fn count_contiguous(geometry: &Geometry, words: &[u64]) -> Contiguous
    requires { length words.now ≡ word_count geometry.now }
    ensures two { result.two ≡ contiguous_in geometry.now words.now size.Two }
    ensures thirty_two { result.thirty_two ≡ contiguous_in geometry.now words.now size.ThirtyTwo }
    ensures five_twelve { result.five_twelve
        ≡ contiguous_in geometry.now words.now size.FiveTwelve }
{
    count_sizes(words_of_tables(geometry, words))
}

/// The sum over the generations of 512 MB of what each is above the first one.
fn sum_raises(geometry: &Geometry, words: &[u64]) -> u128
    requires { length words.now ≡ word_count geometry.now }
    ensures { result ≡ raises_in geometry.now words.now }
{
    let first = geometry.setup().first();
    let (start, count) = generations_of(geometry, Size::FiveTwelve);
    let mut total = 0u128;
    for block in 0..count {
        let value = words[(start + block) as usize];
        total += value.saturating_sub(first) as u128;
    }
    total
}

/// Appends the line of a count.
fn push_count(out: &mut String, name: &str, count: u128) -> Result<(), AllocError>
    ensures { OnOk result (Adds out.old (count_line name.now count) out.new) }
{
    write!(out, "{name} {count}\n")
}

/// Appends the line of a name: how many answers of all callers are counted under it.
fn push_counted(
    out: &mut String,
    counted: Counted,
    answers: &[Listed<Answer>],
) -> Result<(), AllocError>
    ensures { OnOk result (Adds out.old
        (count_line (counted_name counted) (count_in counted answers.now)) out.new) }
{
    let count = count_all(counted, answers);
    push_count(out, name_of_counted(counted), count)
}

/// Appends the counts of the answers of all callers, a line for each name.
fn push_answer_counts(out: &mut String, answers: &[Listed<Answer>]) -> Result<(), AllocError>
    ensures { OnOk result (Adds out.old (answer_counts answers.now) out.new) }
{
    for counted in NAMES {
        push_counted(out, counted, answers)?;
    }
    Ok(())
}

/// Appends the counts of what the shared words show: the contiguous L1 words of each size, and what
/// the generations of 512 MB are above the first one.
fn push_word_counts(out: &mut String, geometry: &Geometry, words: &[u64]) -> Result<(), AllocError>
    requires { length words.now ≡ word_count geometry.now }
    ensures { OnOk result (Adds out.old (word_counts geometry.now words.now) out.new) }
{
    let contiguous = count_contiguous(geometry, words);
    push_count(out, "contig2m", contiguous.two as u128)?;
    push_count(out, "contig32m", contiguous.thirty_two as u128)?;
    push_count(out, "contig512m", contiguous.five_twelve as u128)?;
    push_count(out, "gens", sum_raises(geometry, words))
}

/// The summary of the load of this number: its outcome in counts, each in decimal on a line of its
/// own. `done`, `perm`, `worn`, `inval`, `unknown`, `granted` and `fault` are how many answers of
/// all callers are of that kind; `hit`, `cold` and `missed` how many accesses found their GPI so;
/// `left` how many calls have no answer; `contig2m`, `contig32m` and `contig512m` how many L1 words
/// are contiguous descriptors of that size; `gens` the sum over the generations of 512 MB of what
/// each is above the first one, nothing where it is below. No count wraps. `AllocError` where memory
/// for the text is exhausted.
pub fn load_report(
    alloc: Global,
    number: u32,
    scenario: &Scenario,
    outcome: &Outcome,
) -> Result<Vec<u8>, AllocError>
    requires { FitsScenario scenario.now outcome.now }
    ensures { IfOk result (λ text. text.items ≡ report_of_load number scenario.now outcome.now) }
{
    let mut out = String::new(alloc);
    write!(out, "report 1 load {number}\n")?;
    let answers = outcome.answers.as_slice();
    push_answer_counts(&mut out, answers)?;
    let left = count_left(scenario.scripts.as_slice(), answers);
    push_count(&mut out, "left", left)?;
    push_word_counts(&mut out, &outcome.geometry, outcome.words.as_slice())?;
    out.push_str("end\n")?;
    Ok(out.into_bytes())
}
