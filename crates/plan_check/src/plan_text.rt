//! The text of a plan, written and read.
//!
//! ```text
//! fttcan plan 2
//! from FROM
//! pending MASK
//! first FIRST
//! length LENGTH
//! MASK COUNT
//! end
//! ```
//!
//! There is one line `MASK COUNT` for each run of equal masks, from cycle FROM to FIRST + LENGTH - 1. COUNT is the number
//! of its cycles. Neighbouring lines have different masks, and the counts sum to FIRST + LENGTH - FROM. Each line ends
//! with one line feed.
//!
//! A mask is hexadecimal digits in lower case of the number whose bit s is slot s: ten where all its slots are below 40,
//! and 24 otherwise. The other numbers are decimal, without leading zeros and below 2^42. FIRST is FROM to
//! FROM + 200,000, LENGTH is 1 to 200,000, and COUNT is at least 1. Nothing else stands in the text.
//!
//! Version 1 is read too. Its first line is `fttcan plan 1`, it has a line `MASK` for each cycle, and it names slots
//! below 40 alone.

ghost use Rattle.std.specs.Prelude.{◌≡◌, ◌+◌, ◌-◌, ◌<◌, ◌≤◌, ◌++◌, ◌∷◌, [], Some};
ghost use Rattle.std.specs.Prelude.{IfOk, IfErr, OnOk, ◌&&◌, codes, drop, get_or, length, map, nat_le, replicate};
ghost use Rattle.std.specs.Prelude.{MatchResult};
ghost use Rattle.std.specs.Fmt.{decimal};
ghost use Rattle.plan_check.specs.declared.plan_runs.Version.TheVariants.{Two};
ghost use Rattle.plan_check.specs.Certificate.{CertificateView};
ghost use Rattle.plan_check.specs.PlanText.{IsBody, IsFirstWrongLine, IsReadable, IsReadableHead, IsRunFault, IsTextFault, IsTextOfPlan};
ghost use Rattle.plan_check.specs.PlanText.{head_lines, lines_of_head, plan_text, run_line, runs_of, text_of};
ghost use Rattle.text_fields.specs.MaskText.{mask_digits};

use crate::certificate::Certificate;
use crate::plan_reading::{mask_line, next_run, number_line, version_line, word_line};
use crate::plan_runs::{MaskRun, Version};
use crate::text_fault::PlanTextFault;
use requirement_table::Mask;
use std::alloc::{AllocError, Global};
use text_fields::{
    ROOM, put_byte, put_decimal, put_first, put_line_feed, put_mask, put_word, row_from,
};

/// The text of a certificate, in version 2.
pub fn write_plan(alloc: Global, certificate: &Certificate) -> Result<Vec<u8>, AllocError>
    ensures text { IfOk result (λ bytes. bytes.items ≡ plan_text certificate.now) }
{
    let mut text = Vec::new(alloc);
    push_head(&mut text, certificate)?;
    push_runs(&mut text, certificate.masks())?;
    text.extend_from_slice(b"end\n")?;
    Ok(text)
}

/// Appends the five lines before the masks.
fn push_head(text: &mut Vec<u8>, certificate: &Certificate) -> Result<(), AllocError>
    ensures ok { OnOk result (text.new.items
        ≡ text.old.items ++ text_of (head_lines Version.Two certificate.now)) }
{
    text.extend_from_slice(b"fttcan plan 2\n")?;
    push_number(text, b"from ", certificate.from())?;
    push_pending(text, certificate.pending())?;
    push_number(text, b"first ", certificate.first())?;
    push_number(text, b"length ", certificate.length())
}

/// Appends the line of a word and a number.
fn push_number(text: &mut Vec<u8>, word: &[u8], number: u64) -> Result<(), AllocError>
    requires short { length word.now ≤ 7 }
    ensures ok { OnOk result (text.new.items ≡ text.old.items ++ ((word.now ++ decimal number) ++ 10 ∷ [])) }
{
    let mut row = [0; ROOM];
    let end = put_line_feed(&mut row);
    let start = put_first(&mut row, end, word, number);
    text.extend_from_slice(row_from(&row, start))
}

/// Appends the line of the slots that are pending.
fn push_pending(text: &mut Vec<u8>, mask: Mask) -> Result<(), AllocError>
    ensures ok { OnOk result (text.new.items
        ≡ text.old.items ++ ((codes "pending " ++ mask_digits mask) ++ 10 ∷ [])) }
{
    let mut row = [0; ROOM];
    let end = put_line_feed(&mut row);
    let start = put_mask(&mut row, end, mask.bits());
    let start = put_word(&mut row, start, b"pending ");
    text.extend_from_slice(row_from(&row, start))
}

/// Appends a line for each run of equal masks.
fn push_runs(text: &mut Vec<u8>, masks: &[Mask]) -> Result<(), AllocError>
    ensures ok { OnOk result (text.new.items
        ≡ text.old.items ++ text_of (map (run_line Version.Two) (runs_of masks.now))) }
{
    let mut row = [0; ROOM];
    let mut start = 0;
    while start < masks.len() {
        let end = end_of_run(masks, start);
        let run = MaskRun {
            mask: masks[start],
            count: (end - start) as u64,
        };
        push_run(text, &mut row, &run)?;
        start = end;
    }
    Ok(())
}

/// The place behind the run of equal masks that begins at a place.
fn end_of_run(masks: &[Mask], start: usize) -> usize
    requires within { start < length masks.now }
    ensures behind { start < result }
    ensures within { result ≤ length masks.now }
    ensures run { runs_of (drop start masks.now)
        ≡ record { mask = get_or masks.now start 0; count = result - start } ∷ runs_of (drop result masks.now) }
{
    let mask = masks[start].bits();
    for place in start + 1..masks.len() {
        if masks[place].bits() != mask {
            return place;
        }
    }
    masks.len()
}

/// Appends the line of a run, which is made in `row`.
fn push_run(text: &mut Vec<u8>, row: &mut [u8; ROOM], run: &MaskRun) -> Result<(), AllocError>
    ensures ok { OnOk result (text.new.items
        ≡ text.old.items ++ (run_line Version.Two run.now ++ 10 ∷ [])) }
{
    let end = put_line_feed(row);
    let start = put_decimal(row, end, run.count);
    let start = put_byte(row, start, b' ');
    let start = put_mask(row, start, run.mask.bits());
    text.extend_from_slice(row_from(row, start))
}

/// The most cycles from FROM to FIRST, and the most that the repeated part has.
const MOST: u64 = 200_000;

/// The number of the first line behind the head.
const BEHIND_HEAD: u64 = 6;

/// The numbers and the pending set in the five lines before the masks.
#[derive(Drop)]
struct Head {
    version: Version,
    from: u64,
    pending: Mask,
    first: u64,
    length: u64,
}

/// The certificate whose text the bytes are, in version 2 or version 1.
///
/// # Errors
///
/// The first line that breaks the form, or want of memory.
pub fn read_plan(alloc: Global, bytes: &[u8]) -> Result<Certificate, PlanTextFault>
    ensures plan { IfOk result (IsTextOfPlan bytes.now) }
    ensures readable { IfOk result (IsReadable Version.Two) }
    ensures back { (certificate : CertificateView) → IsTextOfPlan bytes.now certificate
        → MatchResult result (λ read. read ≡ certificate) (λ fault. fault ≡ PlanTextFault.Memory) }
    ensures line { IfErr result (λ fault. IsTextFault bytes.now fault) }
{
    let (head, rest) = match read_head(bytes) {
        Ok(read) => read,
        Err(number) => return Err(PlanTextFault::Line { number }),
    };
    let count = head.first - head.from + head.length;
    let (masks, rest, number) = read_runs(alloc, rest, head.version, count)?;
    let Some(after) = word_line(rest, b"end") else {
        return Err(PlanTextFault::Line { number });
    };
    if !after.is_empty() {
        return Err(PlanTextFault::Line { number: number + 1 });
    }
    Ok(Certificate::new(head.from, head.pending, head.first, masks))
}

/// The five lines before the masks, and what follows them, or the number of the first wrong line.
fn read_head(bytes: &[u8]) -> Result<(Head, &[u8]), u64>
    ensures found { IfOk result (λ r. bytes.now
        ≡ text_of (lines_of_head r.0.version r.0.from r.0.pending r.0.first r.0.length) ++ r.1.now) }
    ensures ranges { IfOk result (λ r. IsReadableHead r.0.version r.0.from r.0.pending r.0.first r.0.length) }
    ensures wrong { IfErr result (λ number. IsFirstWrongLine bytes.now number) }
{
    let Some(begun) = version_line(bytes) else {
        return Err(1);
    };
    let Some((from, behind_from)) = number_line(begun.1, b"from ") else {
        return Err(2);
    };
    let Some(pending) = mask_line(behind_from, b"pending ", begun.0) else {
        return Err(3);
    };
    let Some((first, behind_first)) = number_line(pending.1, b"first ") else {
        return Err(4);
    };
    if !is_near(from, first) {
        return Err(4);
    }
    let Some((length, behind_length)) = number_line(behind_first, b"length ") else {
        return Err(5);
    };
    if !is_length(length) {
        return Err(5);
    }
    let head = Head {
        version: begun.0,
        from,
        pending: pending.0,
        first,
        length,
    };
    Ok((head, behind_length))
}

/// Whether a first repeated cycle is near enough behind the cycle of the first mask.
fn is_near(from: u64, first: u64) -> bool
    ensures near { result ≡ (nat_le from first && nat_le first (from + 200000)) }
{
    from <= first && first - from <= MOST
}

/// Whether a repeated part may have so many cycles.
fn is_length(length: u64) -> bool
    ensures length { result ≡ (nat_le 1 length && nat_le length 200000) }
{
    1 <= length && length <= MOST
}

/// The masks of so many cycles, from the sixth line on, with what follows their lines and the number of the line there.
fn read_runs(
    alloc: Global,
    text: &[u8],
    version: Version,
    count: u64,
) -> Result<(Vec<Mask>, &[u8], u64), PlanTextFault>
    requires few { count ≤ 400000 }
    ensures found { IfOk result (λ r. IsBody version text.now r.1.now r.0.items count r.2) }
    ensures count { IfOk result (λ r. length r.0.items ≡ count) }
    ensures few { IfOk result (λ r. r.2 ≤ 6 + count) }
    ensures wrong { IfErr result (IsRunFault version text.now count) }
{
    let mut masks = Vec::new(alloc);
    let mut rest = text;
    let mut last = None;
    let mut left = count;
    let mut number = BEHIND_HEAD;
    while left > 0 {
        let Some(read) = next_run(rest, version, last, left) else {
            return Err(PlanTextFault::Line { number });
        };
        push_cycles(&mut masks, &read.0)?;
        last = Some(read.0.mask);
        left -= read.0.count;
        rest = read.1;
        number += 1;
    }
    Ok((masks, rest, number))
}

/// Appends the masks of the cycles of a run.
fn push_cycles(masks: &mut Vec<Mask>, run: &MaskRun) -> Result<(), PlanTextFault>
    ensures ok { OnOk result (masks.new.items ≡ masks.old.items ++ replicate run.now.count run.now.mask) }
    ensures memory { IfErr result (λ fault. fault ≡ PlanTextFault.Memory) }
{
    for _ in 0..run.count {
        masks.push(run.mask)?;
    }
    Ok(())
}
