//! Laws about what C is told. Each function has an empty body, and its contract is the law.

ghost use Rattle.std.specs.Prelude.{◌≡◌, ℕ, ◌^◌, ◌<◌, [], List, map, true};
ghost use Rattle.can_frame.specs.DataFrame.{DataFrame, IsFrame};
ghost use Rattle.requirement_table.specs.declared.entries.Placed.{Placed};
ghost use Rattle.bit_sets.specs.Sets.{most_slots};
ghost use Rattle.change_protocol.specs.declared.operations.Change.{Change};
ghost use Rattle.admission_rules.specs.declared.Rules.{Rules};
ghost use Rattle.admission.specs.declared.verdict.Verdict.{Verdict};
ghost use Rattle.admission.specs.Verdict.{IsSafe};
ghost use Rattle.master_core.specs.Cores.{CoreView, answered_by, new_core, opened};
ghost use Rattle.c_values.specs.declared.plain.FttRules.{FttRules};
ghost use Rattle.c_values.specs.Plain.{AreRules, frame_of, mask_of, placed_of, rules_of, table_of};
ghost use Rattle.fttcan_c.specs.Saving.{IsForC};
ghost use Rattle.c_values.specs.Told.{frame_told, mask_told, put_of, rules_told};

/// What C is told of a placed entry, of a table, of rules, of a set of slots or of a frame stands for it.
pub fn told_whole()
    ensures placed { (p : Placed) → placed_of (put_of p) ≡ p }
    ensures table { (placed : List Placed) → table_of (map put_of placed) ≡ placed }
    ensures rules { (rules : Rules) → rules_of (rules_told rules) ≡ rules }
    ensures mask { (mask : ℕ) → mask_of (mask_told mask) ≡ mask }
    ensures frame { (frame : DataFrame) → frame_of (frame_told frame) ≡ frame }
{}

/// A core that is made new by rules that C hands in is one for C, and it stays so behind each answer and each opening.
pub fn cores_for_c()
    ensures made { (rules : FttRules) → AreRules rules → IsForC (new_core (rules_of rules) true) }
    ensures answered { (core : CoreView) (from : ℕ) (change : Change) (verdict : Verdict) → IsForC core
        → IsForC (answered_by core from change verdict) }
    ensures opened { (core : CoreView) → IsForC core → IsForC (opened core) }
{}

/// A table without an entry misses no deadline from cycle 0 on, with no slot pending: from there the stateless pair
/// begins.
pub fn safe_from_nothing()
    ensures safe { (rules : FttRules) → IsSafe (rules_of rules) [] 0 0 }
{}
