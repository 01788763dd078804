//! What the definitions of a steps file say, one of the other.

ghost use Rattle.std.specs.Prelude.{◌≡◌, ◌≢◌, ◌↔◌, ℕ, List, Ok, Err};
ghost use Rattle.text_fields.specs.RowByRow.{IsFirstFault};
ghost use Rattle.steps_file.specs.StepRow.{meaning};
ghost use Rattle.steps_file.specs.StepsFile.{AreSteps, AreLegalSteps, steps_of_rows};
ghost use Rattle.steps_file.specs.declared.step_fault.StepFault.TheVariants.{Row, Memory};
ghost use Rattle.steps_file.specs.declared.step_fault.StepWhy.{StepWhy};
ghost use Rattle.steps_file.specs.declared.steps.Step.{Step};

/// Law: what is computed of the rows of a steps file is the steps that the lines of all rows say,
/// or the first row that is none; and it is one of the two.
pub fn steps_mean()
    ensures ok { (rows : List (List (List ℕ))) (steps : List Step)
        → (steps_of_rows rows ≡ Ok steps) ↔ AreSteps rows steps }
    ensures fault { (rows : List (List (List ℕ))) (number : ℕ) (why : StepWhy)
        → (steps_of_rows rows ≡ Err (Row number why)) ↔ IsFirstFault meaning rows number why }
    ensures no_more { (rows : List (List (List ℕ))) → steps_of_rows rows ≢ Err Memory }
{}

/// Law: the steps of a steps file have each number in its range, and are not too many.
pub fn steps_are_legal()
    ensures legal { (rows : List (List (List ℕ))) (steps : List Step) → AreSteps rows steps → AreLegalSteps steps }
{}
