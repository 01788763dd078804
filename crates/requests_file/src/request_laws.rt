//! What the definitions of a requests file say, one of the other.

ghost use Rattle.std.specs.Prelude.{◌≡◌, ◌≢◌, ◌↔◌, ℕ, List, Ok, Err};
ghost use Rattle.async_window.specs.declared.request.Owner.{Owner};
ghost use Rattle.async_window.specs.declared.request.Request.{Request};
ghost use Rattle.requests_file.specs.RequestRow.{meaning};
ghost use Rattle.requests_file.specs.RequestsFile.{AreRequests, requests_of_rows};
ghost use Rattle.text_fields.specs.RowByRow.{IsFirstFault};
ghost use Rattle.requests_file.specs.declared.request_fault.RequestFault.TheVariants.{Row, Memory};
ghost use Rattle.requests_file.specs.declared.request_fault.RequestWhy.{RequestWhy};

/// Law: what is computed of the rows of a requests file is the requests of all rows, each below
/// those above it, or the first row that is none; and it is one of the two.
pub fn requests_mean()
    ensures ok { (owners : List Owner) (rows : List (List (List ℕ))) (requests : List Request)
        → (requests_of_rows owners rows ≡ Ok requests) ↔ AreRequests owners rows requests }
    ensures fault { (owners : List Owner) (rows : List (List (List ℕ))) (number : ℕ) (why : RequestWhy)
        → (requests_of_rows owners rows ≡ Err (Row number why)) ↔ IsFirstFault (meaning owners) rows number why }
    ensures no_more { (owners : List Owner) (rows : List (List (List ℕ))) → requests_of_rows owners rows ≢ Err Memory }
{}
