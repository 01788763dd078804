//! The rows of the report, each appended to its text.

ghost use Rattle.std.specs.Prelude.{◌≡◌, ◌<◌, ◌++◌, ◌∷◌, [], OnOk, false};
ghost use Rattle.std.specs.String.{string_bytes};
ghost use Rattle.std.specs.Fmt.{digit_glyph};
ghost use Rattle.bus_trace.specs.Log.{hex_digits};
ghost use Rattle.plan_report.specs.Report.{field_of};
ghost use Rattle.plan_report.specs.Written.{owned_row, tally_row, widths_row};

use crate::load::Load;
use crate::tally::Tally;
use requirement_table::Placed;
use std::alloc::AllocError;

/// Appends a number, where there is one.
fn push_field(text: &mut String, field: Option<u64>) -> Result<(), AllocError>
    ensures ok { OnOk result (string_bytes text.new ≡ string_bytes text.old ++ field_of field) }
{
    match field {
        Some(number) => write!(text, "{number}"),
        None => Ok(()),
    }
}

/// Appends the row of an entry, of which so much was sent.
pub fn push_entry_row(text: &mut String, p: &Placed, tally: &Tally) -> Result<(), AllocError>
    ensures ok { OnOk result (string_bytes text.new ≡ string_bytes text.old ++ tally_row p.now tally.now) }
{
    let slot = p.entry.slot;
    let origin = p.origin;
    let instances = tally.instances;
    write!(text, "entry,{slot},{origin},{instances},")?;
    push_field(text, tally.least)?;
    write!(text, ",")?;
    push_field(text, tally.greatest)?;
    writeln!(text)
}

/// Appends a hexadecimal digit.
fn push_digit(text: &mut String, digit: u16) -> Result<(), AllocError>
    requires digit { digit < 16 }
    ensures ok { OnOk result (string_bytes text.new ≡ string_bytes text.old ++ digit_glyph false digit ∷ []) }
{
    write!(text, "{digit:x}")
}

/// Appends an identifier of 11 bits as three hexadecimal digits.
fn push_identifier(text: &mut String, id: u16) -> Result<(), AllocError>
    ensures ok { OnOk result (string_bytes text.new ≡ string_bytes text.old ++ hex_digits 3 id) }
{
    push_digit(text, id / 16 / 16 % 16)?;
    push_digit(text, id / 16 % 16)?;
    push_digit(text, id % 16)
}

/// Appends the row of an identifier, where it has an owner: so many frames of it were sent, and so many were asked for.
pub fn push_owned_row(
    text: &mut String,
    id: u16,
    owned: bool,
    sent: usize,
    asked: usize,
) -> Result<(), AllocError>
    ensures ok { OnOk result (string_bytes text.new ≡ string_bytes text.old ++ owned_row id owned sent asked) }
{
    if !owned {
        return Ok(());
    }
    let left = asked.saturating_sub(sent);
    write!(text, "async,")?;
    push_identifier(text, id)?;
    writeln!(text, ",{sent},{left}")
}

/// Appends the row of the widths of opened cycles.
pub fn push_load_row(text: &mut String, load: &Load) -> Result<(), AllocError>
    ensures ok { OnOk result (string_bytes text.new ≡ string_bytes text.old ++ widths_row load.now) }
{
    let sum = load.sum;
    write!(text, "load,")?;
    push_field(text, load.least)?;
    write!(text, ",")?;
    push_field(text, load.greatest)?;
    writeln!(text, ",{sum}")
}
