//! Laws about logs. Each function has an empty body, and its contract is the law.

ghost use Rattle.std.specs.Prelude.{◌≡◌, ℕ, ◌+◌, ◌≤◌, ◌==◌, ◌++◌, [], ◌∷◌, List, filter, length};
ghost use Rattle.std.specs.List.{flat_map};
ghost use Rattle.can_frame.specs.declared.data_frame.TimedFrame.{TimedFrame};
ghost use Rattle.master_core.specs.declared.event.Event.{Event};
ghost use Rattle.master_core.specs.History.{AllAfter, next_of};
ghost use Rattle.bus_trace.specs.EventRows.{SaysWidth, rows_of_event, told_of_event};
ghost use Rattle.bus_trace.specs.LastRows.{AreRows, IsTailOf, rows_in};
ghost use Rattle.bus_trace.specs.Log.{end_row, log_text, started_in};
ghost use Rattle.bus_trace.specs.LogRows.{log_rows};
ghost use Rattle.log_reader.specs.Row.{text_of_rows};
ghost use Rattle.bus_trace.specs.Logged.{frames_of_event, is_trigger};
ghost use Rattle.log_reader.specs.declared.row.LogRow.TheVariants.{End};

/// Where each trigger says the length of its cycle's synchronous window, the rows of the events of a history, each with
/// the frames that start in the cycle that it opens, and then the last row, are the log: as texts, and as values.
pub fn events_make_the_log()
    ensures rows { (trace : List TimedFrame) (history : List Event) → AllAfter (SaysWidth trace) [] history
        → flat_map (λ event. rows_of_event event (frames_of_event trace event)) history ++ end_row (next_of history)
        ≡ log_text history trace }
    ensures values { (trace : List TimedFrame) (history : List Event) → AllAfter (SaysWidth trace) [] history
        → flat_map (λ event. told_of_event event (frames_of_event trace event)) history ++ End (next_of history) ∷ []
        ≡ log_rows history trace }
{}

/// The log is the text of its rows. So where they are in the ranges of their types, reading the log gives them back.
pub fn logs_are_rows()
    ensures rows { (history : List Event) (trace : List TimedFrame)
        → log_text history trace ≡ text_of_rows (log_rows history trace) }
{}

/// Where the triggers up to each frame of a trace, itself included, are one more than the number of its cycle, the frames
/// that start in a cycle are those of that number, in their order.
pub fn frames_by_cycle()
    ensures frames { (trace : List TimedFrame) (cycle_of : TimedFrame → ℕ)
        → ((front later : List TimedFrame) (sent : TimedFrame) → trace ≡ front ++ sent ∷ later
        → length (filter is_trigger (front ++ sent ∷ [])) ≡ cycle_of sent + 1)
        → (cycle : ℕ) → started_in cycle 0 trace ≡ filter (λ sent. cycle_of sent == cycle) trace }
{}

/// The rows of an event, and the last row of a log, are whole rows. Whole rows behind whole rows are whole rows, as many
/// as both are. What is kept of a text, with whole rows behind it, is kept of the text with these rows behind it. Where
/// the rows behind others are enough, the others may go.
pub fn rows_are_whole()
    ensures event { (event : Event) (frames : List TimedFrame) → AreRows (rows_of_event event frames) }
    ensures end { (next : ℕ) → AreRows (end_row next) }
    ensures both { (first second : List ℕ) → AreRows first → AreRows second → AreRows (first ++ second) }
    ensures counted { (first second : List ℕ) → AreRows first
        → length (rows_in (first ++ second)) ≡ length (rows_in first) + length (rows_in second) }
    ensures tails { (text kept rows : List ℕ) (most : ℕ) → IsTailOf text most kept → AreRows rows
        → IsTailOf (text ++ rows) most (kept ++ rows) }
    ensures same { (text kept later : List ℕ) (most : ℕ) → IsTailOf text most kept → IsTailOf kept most later
        → IsTailOf text most later }
    ensures enough { (first second : List ℕ) (most : ℕ) → AreRows first → AreRows second
        → most ≤ length (rows_in second) → IsTailOf (first ++ second) most second }
{}
