//! A text row by row.

ghost use Rattle.std.specs.Prelude.{◌≤◌, OnOk, OnErr};
ghost use Rattle.ftt_io.specs.Counts.{Rose};
ghost use Rattle.ftt_io.specs.Puts.{Puts, PutsPrefix};

use bus_trace::row_len;
use ftt_io::{Failed, Sink, write_all};

/// Puts the text, or its first bytes where the sink fails. The body puts each row by a call of its own; no clause says
/// so.
pub fn put_rows<O: Sink>(out: &mut O, text: &[u8]) -> Result<(), Failed>
    ensures faults_never_fall { O.faults out.old ≤ O.faults out.new }
    ensures all { OnOk result (Puts (O.told_bytes out.old) (O.told_bytes out.new) text.now) }
    ensures failed { OnErr result (Rose (O.faults out.old) (O.faults out.new)) }
    ensures prefix { OnErr result (PutsPrefix (O.told_bytes out.old) (O.told_bytes out.new) text.now) }
{
    let mut rest = text;
    while !rest.is_empty() {
        let end = row_len(rest);
        write_all(out, &rest[..end])?;
        rest = &rest[end..];
    }
    Ok(())
}
