//! Laws about the definitions of this crate. Each function has an empty body, and its contract is the law.

ghost use Rattle.std.specs.Prelude.{◌≡◌, ◌≢◌, ℕ, ◌<◌, ◌≤◌, List, All, AllPairs, Any};
ghost use Rattle.can_frame.specs.declared.data_frame.TimedFrame.{TimedFrame};
ghost use Rattle.requirement_table.specs.declared.entries.Placed.{Placed};
ghost use Rattle.async_window.specs.declared.request.Owner.{Owner};
ghost use Rattle.plan_report.specs.Report.{owned_below, sent_of};
ghost use Rattle.plan_report.specs.Sent.{WasSentIn};

/// What is counted of an entry are its instances that were sent, each once: those that may be sent in a cycle in
/// which a frame of the entry's slot starts. So their number is that of the instances that were sent, and each delay
/// is that of a cycle in which the instance was.
pub fn instances_sent()
    ensures once { (trace : List TimedFrame) (p : Placed)
        → AllPairs (λ one other. one.number ≢ other.number) (sent_of trace p) }
    ensures sent { (trace : List TimedFrame) (p : Placed)
        → All (λ s. WasSentIn trace p s.number s.cycle) (sent_of trace p) }
    ensures each { (trace : List TimedFrame) (p : Placed) (number cycle : ℕ) → p.entry.deadline ≤ p.entry.period
        → WasSentIn trace p number cycle → Any (λ s. s.number ≡ number) (sent_of trace p) }
{}

/// The identifiers of which the report has a row are those that have an owner, each once, the least one first.
pub fn owned_identifiers()
    ensures owned { (owners : List Owner) (n : ℕ)
        → All (λ id. (id < n) × Any (λ owner. owner.id ≡ id) owners) (owned_below owners n) }
    ensures ascending { (owners : List Owner) (n : ℕ) → AllPairs (λ one other. one < other) (owned_below owners n) }
    ensures each { (owners : List Owner) (n id : ℕ) → id < n → Any (λ owner. owner.id ≡ id) owners
        → Any (λ other. other ≡ id) (owned_below owners n) }
{}
