//! Laws about the rows of a text. Each function has an empty body, and its contract is the law.

ghost use Rattle.std.specs.Prelude.{◌≡◌, ℕ, ◌++◌, All, List};
ghost use Rattle.log_reader.specs.LogReading.{HasReadRows, RowReader};
ghost use Rattle.log_reader.specs.Row.{AreRowsOf, IsFirstFaultyRow, IsLogRow, text_of_rows};
ghost use Rattle.log_reader.specs.declared.row.LogRow.{LogRow};

/// A text is the rows of a log in one way only, and has no faulty row then. The rows that were read so far are the first
/// of these rows.
pub fn one_log()
    ensures one { (bytes : List ℕ) (rows others : List LogRow) → AreRowsOf bytes rows → AreRowsOf bytes others
        → rows ≡ others }
    ensures no_fault { (bytes : List ℕ) (rows : List LogRow) (number : ℕ) → AreRowsOf bytes rows
        → IsFirstFaultyRow bytes number → ⊥ }
    ensures first { (bytes : List ℕ) (reader : RowReader) (read rows : List LogRow) → HasReadRows bytes reader read
        → AreRowsOf bytes rows → (later : List LogRow) × (rows ≡ read ++ later) }
{}

/// Rows are read back as themselves: the text of rows of a log is these rows.
pub fn written_rows()
    ensures back { (rows : List LogRow) → All IsLogRow rows → AreRowsOf (text_of_rows rows) rows }
{}
