//! The rows that tell what is chosen of a wish, or why nothing is.

ghost use Rattle.std.specs.Prelude.{◌≡◌, ◌++◌, IfOk, OnOk, string_bytes};
ghost use Rattle.std.specs.List.{flat_map};
ghost use Rattle.bus_trace.specs.Log.{last_field, until_of, verdict_fields};
ghost use Rattle.elastic.specs.ChoiceRows.{choice_row, later_period, none_rows, periods_text, too_many_row, tried_row, tried_rows};

use crate::choice::Choice;
use admission::Verdict;
use change_protocol::Why;
use std::alloc::{AllocError, Global};

/// Appends periods that stand behind others.
fn push_later(text: &mut String, periods: &[u16]) -> Result<(), AllocError>
    ensures ok { OnOk result
        (string_bytes text.new ≡ string_bytes text.old ++ flat_map later_period periods.now) }
{
    for period in periods {
        write!(text, ",{period}")?;
    }
    Ok(())
}

/// Appends periods, with a comma between each two.
#[tactic(auto, unfolding(crate::specs::ChoiceRows::periods_text))]
fn push_periods(text: &mut String, periods: &[u16]) -> Result<(), AllocError>
    ensures ok { OnOk result (string_bytes text.new ≡ string_bytes text.old ++ periods_text periods.now) }
{
    match periods.split_first() {
        None => Ok(()),
        Some((first, later)) => {
            write!(text, "{first}")?;
            push_later(text, later)
        }
    }
}

/// The row of a choice: `choice,NUMBER,`, its periods, and `,FIRST,LENGTH`.
///
/// # Errors
///
/// Only where memory runs out.
pub fn choice_row(alloc: Global, choice: &Choice) -> Result<String, AllocError>
    ensures row { IfOk result (λ text. string_bytes text ≡ choice_row choice.now) }
{
    let mut text = String::new(alloc);
    write!(text, "choice,{},", choice.number)?;
    push_periods(&mut text, choice.periods.as_slice())?;
    writeln!(text, ",{},{}", choice.first, choice.length)?;
    Ok(text)
}

/// Appends the cycle that the reason of a refusal names, where it names one, as a last field.
fn push_until(text: &mut String, why: &Why) -> Result<(), AllocError>
    ensures ok { OnOk result
        (string_bytes text.new ≡ string_bytes text.old ++ last_field (until_of why.now)) }
{
    match why {
        Why::SlotBusy { until: Some(cycle) } => {
            write!(text, ",{cycle}")?;
            Ok(())
        }
        _ => Ok(()),
    }
}

/// Appends the fields of a verdict, as a row of the log has them.
fn push_verdict(text: &mut String, verdict: &Verdict) -> Result<(), AllocError>
    ensures ok { OnOk result (string_bytes text.new ≡ string_bytes text.old ++ verdict_fields verdict.now) }
{
    match verdict {
        Verdict::Malformed { op, why } => {
            write!(text, "malformed,{op},{}", why.code())?;
            push_until(text, why)?;
        }
        Verdict::Passed { start, next } => write!(text, "passed,{start},{next}")?,
        Verdict::Miss {
            slot,
            release,
            cycle,
        } => write!(text, "miss,{slot},{release},{cycle}")?,
        Verdict::Horizon { from, walked } => write!(text, "horizon,{from},{walked}")?,
        Verdict::Accepted { first, length } => write!(text, "accepted,{first},{length}")?,
    }
    Ok(())
}

/// Appends the row of the combination with this number, which is refused.
fn push_tried(text: &mut String, number: usize, verdict: &Verdict) -> Result<(), AllocError>
    ensures ok { OnOk result (string_bytes text.new ≡ string_bytes text.old ++ tried_row number verdict.now) }
{
    write!(text, "tried,{number},")?;
    push_verdict(text, verdict)?;
    text.push('\n')?;
    Ok(())
}

/// Appends the rows of combinations that are refused, of which the first has number 0.
fn push_all_tried(text: &mut String, verdicts: &[Verdict]) -> Result<(), AllocError>
    ensures ok { OnOk result (string_bytes text.new ≡ string_bytes text.old ++ tried_rows 0 verdicts.now) }
{
    for (number, verdict) in verdicts.iter().enumerate() {
        push_tried(text, number, verdict)?;
    }
    Ok(())
}

/// The rows where each combination is refused: `none,COUNT`, and one row `tried,NUMBER,VERDICT` for each of them.
///
/// # Errors
///
/// Only where memory runs out.
pub fn none_rows(alloc: Global, verdicts: &[Verdict]) -> Result<String, AllocError>
    ensures rows { IfOk result (λ text. string_bytes text ≡ none_rows verdicts.now) }
{
    let mut text = String::new(alloc);
    writeln!(text, "none,{}", verdicts.len())?;
    push_all_tried(&mut text, verdicts)?;
    Ok(text)
}

/// The row where there are too many combinations: `toomany,COUNT`.
///
/// # Errors
///
/// Only where memory runs out.
pub fn too_many_row(alloc: Global, count: u64) -> Result<String, AllocError>
    ensures row { IfOk result (λ text. string_bytes text ≡ too_many_row count) }
{
    format!(in alloc; "toomany,{count}\n")
}
