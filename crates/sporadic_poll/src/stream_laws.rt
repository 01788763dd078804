//! What the definitions of a streams file say, one of the other.

ghost use Rattle.std.specs.Prelude.{◌≡◌, ◌≢◌, ◌↔◌, ℕ, List, Ok, Err};
ghost use Rattle.text_fields.specs.RowByRow.{IsFirstFault};
ghost use Rattle.sporadic_poll.specs.StreamRow.{meaning};
ghost use Rattle.sporadic_poll.specs.StreamsFile.{AreStreamsOfRows, streams_of_rows};
ghost use Rattle.sporadic_poll.specs.declared.stream.Stream.{Stream};
ghost use Rattle.sporadic_poll.specs.declared.stream_fault.StreamFault.TheVariants.{Row, Memory};
ghost use Rattle.sporadic_poll.specs.declared.stream_fault.StreamWhy.{StreamWhy};

/// Law: what is computed of the rows of a streams file is the requests of all rows, each below those above it, or the
/// first row that is none; and it is one of the two.
pub fn streams_mean()
    ensures ok { (slots : ℕ) (rows : List (List (List ℕ))) (streams : List Stream)
        → (streams_of_rows slots rows ≡ Ok streams) ↔ AreStreamsOfRows slots rows streams }
    ensures fault { (slots : ℕ) (rows : List (List (List ℕ))) (number : ℕ) (why : StreamWhy)
        → (streams_of_rows slots rows ≡ Err (Row number why)) ↔ IsFirstFault (meaning slots) rows number why }
    ensures no_more { (slots : ℕ) (rows : List (List (List ℕ))) → streams_of_rows slots rows ≢ Err Memory }
{}
