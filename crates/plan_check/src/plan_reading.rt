//! The lines of a plan text, read one by one.

ghost use Rattle.std.specs.Prelude.{◌≡◌, ℕ, ◌<◌, ◌≤◌, ◌++◌, ◌∷◌, List, IfSome, IfNone, true};
ghost use Rattle.std.specs.Fmt.{decimal};
ghost use Rattle.text_fields.specs.Lines.{HasNoFeed};
ghost use Rattle.text_fields.specs.MaskText.{mask_digits};
ghost use Rattle.plan_check.specs.declared.plan_runs.MaskRun.{MaskRun};
ghost use Rattle.plan_check.specs.declared.plan_runs.Version.{Version};
ghost use Rattle.plan_check.specs.PlanText.{HasNoSpace, IsOfVersion, MayFollow, first_line, is_other, mask_bound, numbers_end, run_line};

use crate::plan_runs::{MaskRun, Version};
use requirement_table::Mask;
use text_fields::{read_decimal, read_mask, split_line};

/// Numbers of a plan text are below this.
const NUMBERS_END: u64 = 1 << 42;

/// What follows the first line of a text, where that is the word.
pub fn word_line<'a>(text: &'a [u8], word: &[u8]) -> Option<&'a [u8]>
    requires word { HasNoFeed word.now }
    ensures found { IfSome result (λ after. text.now ≡ word.now ++ 10 ∷ after.now) }
    ensures none { IfNone result ((after : List ℕ) → text.now ≡ word.now ++ 10 ∷ after → ⊥) }
{
    let (line, after) = split_line(text)?;
    if line == word { Some(after) } else { None }
}

/// The version of a text, by its first line, and what follows that line.
pub fn version_line(text: &[u8]) -> Option<(Version, &[u8])>
    ensures found { IfSome result (λ r. text.now ≡ first_line r.0 ++ 10 ∷ r.1.now) }
    ensures none { IfNone result ((version : Version) (after : List ℕ)
        → text.now ≡ first_line version ++ 10 ∷ after → ⊥) }
{
    if let Some(after) = word_line(text, b"fttcan plan 2") {
        return Some((Version::Two, after));
    }
    let after = word_line(text, b"fttcan plan 1")?;
    Some((Version::One, after))
}

/// What the first line of a text says behind the word, and what follows the line.
fn line_behind<'a>(text: &'a [u8], word: &[u8]) -> Option<(&'a [u8], &'a [u8])>
    requires word { HasNoFeed word.now }
    ensures found { IfSome result (λ r. text.now ≡ (word.now ++ r.0.now) ++ 10 ∷ r.1.now) }
    ensures only { IfSome result (λ r. (said after : List ℕ) → HasNoFeed said
        → text.now ≡ (word.now ++ said) ++ 10 ∷ after → r.0.now ≡ said) }
    ensures none { IfNone result ((said after : List ℕ) → HasNoFeed said
        → text.now ≡ (word.now ++ said) ++ 10 ∷ after → ⊥) }
{
    let (line, after) = split_line(text)?;
    let said = line.strip_prefix(word)?;
    Some((said, after))
}

/// The number in the first line of a text, behind the word, and what follows the line.
pub fn number_line<'a>(text: &'a [u8], word: &[u8]) -> Option<(u64, &'a [u8])>
    requires word { HasNoFeed word.now }
    ensures found { IfSome result (λ r. text.now ≡ (word.now ++ decimal r.0) ++ 10 ∷ r.1.now) }
    ensures below { IfSome result (λ r. r.0 < numbers_end) }
    ensures none { IfNone result ((n : ℕ) (after : List ℕ) → n < numbers_end
        → text.now ≡ (word.now ++ decimal n) ++ 10 ∷ after → ⊥) }
{
    let (digits, after) = line_behind(text, word)?;
    let number = read_number(digits)?;
    Some((number, after))
}

/// The mask in the first line of a text, behind the word, and what follows the line.
pub fn mask_line<'a>(text: &'a [u8], word: &[u8], version: Version) -> Option<(Mask, &'a [u8])>
    requires word { HasNoFeed word.now }
    ensures found { IfSome result (λ r. text.now ≡ (word.now ++ mask_digits r.0) ++ 10 ∷ r.1.now) }
    ensures below { IfSome result (λ r. r.0 < mask_bound version) }
    ensures none { IfNone result ((m : ℕ) (after : List ℕ) → m < mask_bound version
        → text.now ≡ (word.now ++ mask_digits m) ++ 10 ∷ after → ⊥) }
{
    let (digits, after) = line_behind(text, word)?;
    let mask = mask_of(digits, version)?;
    Some((mask, after))
}

/// The run in the first line of a text, where it may follow one with the mask `last` and has at most `most` cycles, and
/// what follows the line. It is not inlined, since its loops want the registers for themselves.
#[inline(never)]
pub fn next_run(
    text: &[u8],
    version: Version,
    last: Option<Mask>,
    most: u64,
) -> Option<(MaskRun, &[u8])>
    ensures found { IfSome result (λ r. text.now ≡ run_line version r.0 ++ 10 ∷ r.1.now) }
    ensures follows { IfSome result (λ r. MayFollow version last r.0) }
    ensures most { IfSome result (λ r. r.0.count ≤ most) }
    ensures none { IfNone result ((run : MaskRun) (after : List ℕ) → MayFollow version last run → run.count ≤ most
        → run.count < numbers_end → text.now ≡ run_line version run ++ 10 ∷ after → ⊥) }
{
    let (line, after) = split_line(text)?;
    let run = run_of(line, version)?;
    if 1 <= run.count && run.count <= most && is_other(last, run.mask, version) {
        Some((run, after))
    } else {
        None
    }
}

/// Whether a version lists a run with this mask behind one with the mask `last`.
fn is_other(last: Option<Mask>, mask: Mask, version: Version) -> bool
    ensures other { result ≡ is_other last mask version }
{
    match (version, last) {
        (Version::Two, Some(last)) => last.bits() != mask.bits(),
        _ => true,
    }
}

/// The run of a line.
fn run_of(line: &[u8], version: Version) -> Option<MaskRun>
    ensures found { IfSome result (λ run. line.now ≡ run_line version run) }
    ensures of_version { IfSome result (IsOfVersion version) }
    ensures none { IfNone result ((run : MaskRun) → IsOfVersion version run → line.now ≡ run_line version run → ⊥) }
{
    match version {
        Version::One => cycle_of(line),
        Version::Two => counted_of(line),
    }
}

/// The one cycle of a line of version 1.
fn cycle_of(line: &[u8]) -> Option<MaskRun>
    ensures found { IfSome result (λ run. line.now ≡ run_line Version.One run) }
    ensures of_version { IfSome result (IsOfVersion Version.One) }
    ensures none { IfNone result ((run : MaskRun) → IsOfVersion Version.One run
        → line.now ≡ run_line Version.One run → ⊥) }
{
    let mask = mask_of(line, Version::One)?;
    Some(MaskRun { mask, count: 1 })
}

/// The run of a line of version 2.
fn counted_of(line: &[u8]) -> Option<MaskRun>
    ensures found { IfSome result (λ run. line.now ≡ run_line Version.Two run) }
    ensures of_version { IfSome result (IsOfVersion Version.Two) }
    ensures none { IfNone result ((run : MaskRun) → IsOfVersion Version.Two run
        → line.now ≡ run_line Version.Two run → ⊥) }
{
    let (digits, behind) = split_space(line)?;
    let mask = mask_of(digits, Version::Two)?;
    let count = read_number(behind)?;
    Some(MaskRun { mask, count })
}

/// What stands before the last space of a line, and what stands behind it; nothing where there is no space. It looks
/// from the end, since a count has fewer digits than a mask.
fn split_space(line: &[u8]) -> Option<(&[u8], &[u8])>
    ensures split { IfSome result (λ r. line.now ≡ r.0.now ++ 32 ∷ r.1.now) }
    ensures behind { IfSome result (λ r. HasNoSpace r.1.now) }
    ensures none { IfNone result (HasNoSpace line.now) }
{
    for place in (0..line.len()).rev() {
        if line[place] == b' ' {
            return Some((&line[..place], &line[place + 1..]));
        }
    }
    None
}

/// The number of decimal digits without leading zeros, below 2^42.
fn read_number(digits: &[u8]) -> Option<u64>
    ensures found { IfSome result (λ n. digits.now ≡ decimal n) }
    ensures below { IfSome result (λ n. n < numbers_end) }
    ensures none { IfNone result ((n : ℕ) → n < numbers_end → digits.now ≡ decimal n → ⊥) }
{
    let number = read_decimal(digits)?;
    if number < NUMBERS_END {
        Some(number)
    } else {
        None
    }
}

/// The mask of its hexadecimal digits, where the version names its slots.
fn mask_of(digits: &[u8], version: Version) -> Option<Mask>
    ensures found { IfSome result (λ m. digits.now ≡ mask_digits m) }
    ensures below { IfSome result (λ m. m < mask_bound version) }
    ensures none { IfNone result ((m : ℕ) → m < mask_bound version → digits.now ≡ mask_digits m → ⊥) }
{
    let bits = read_mask(digits)?;
    if bits < version.mask_bound() {
        Some(Mask::from_bits(bits))
    } else {
        None
    }
}
