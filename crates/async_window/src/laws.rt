//! What follows from the definitions, each as the contract of a function that does nothing.

ghost use Rattle.std.specs.Prelude.{◌≡◌, ◌≢◌, ◌↔◌, ℕ, ◌/◌, ◌<◌, ◌≤◌, ◌==◌, if◌then◌else◌, All, AllPairs};
ghost use Rattle.std.specs.Prelude.{Contains, IsSome, IsTrue, List, [], ◌∷◌, ◌++◌, Option, Some, drop, map};
ghost use Rattle.profile.specs.Limits.{arrivals_end, greatest_identifier, least_asynchronous};
ghost use Rattle.can_frame.specs.declared.data_frame.TimedFrame.{TimedFrame};
ghost use Rattle.cycle_layout.specs.Layout.{CycleLayout};
ghost use Rattle.async_window.specs.declared.request.Request.{Request};
ghost use Rattle.async_window.specs.Waiting.{MayStart, unsent_after};
ghost use Rattle.async_window.specs.Mailbox.{IsLeastWith, IsMail, Mail, OffersIdentifier, mail_after};
ghost use Rattle.async_window.specs.Mailbox.{mail_offer, may_start, unsent_of, without_first};
ghost use Rattle.async_window.specs.Adding.{with_request};
ghost use Rattle.async_window.specs.Online.{ComeLater, HaveArrived, WereRequests, arrived_by, coming_after};
ghost use Rattle.async_window.specs.Online.{forgotten, forgotten_mail};

/// What is not sent once some frames have started.
pub fn unsent_laws()
    ensures known { (ids : List ℕ) (requests : List Request) (past : List TimedFrame)
        → AllPairs (λ one other. one ≢ other) ids
        → All (λ id. least_asynchronous ≤ id) ids → All (λ id. id ≤ greatest_identifier) ids
        → All (λ request. request.at < arrivals_end) requests
        → IsMail (mail_after ids requests past) }

    // An identifier that has a mailbox has the requests that wait by the frames in the past, and another one has none.
    ensures among { (ids : List ℕ) (requests : List Request) (past : List TimedFrame) (id : ℕ) → Contains ids id
        → unsent_of (mail_after ids requests past) id ≡ unsent_after requests past id }
    ensures elsewhere { (ids : List ℕ) (requests : List Request) (past : List TimedFrame) (id : ℕ)
        → (Contains ids id → ⊥)
        → unsent_of (mail_after ids requests past) id ≡ [] }

    ensures identifiers { (ids : List ℕ) (requests : List Request) (past : List TimedFrame)
        → map (λ box. box.identifier) (mail_after ids requests past) ≡ ids }

    // Each frame takes away the first request of its identifier.
    ensures sent { (ids : List ℕ) (requests : List Request) (past : List TimedFrame) (sent : TimedFrame)
        → mail_after ids requests (past ++ sent ∷ [])
        ≡ without_first sent.frame.identifier (mail_after ids requests past) }
{}

/// What is left without the first request of an identifier.
pub fn taking_laws()
    ensures unsent { (id : ℕ) (mail : List Mail) (other : ℕ) → unsent_of (without_first id mail) other
        ≡ (if other == id then drop 1 (unsent_of mail id) else unsent_of mail other) }
    ensures identifiers { (id : ℕ) (mail : List Mail)
        → map (λ box. box.identifier) (without_first id mail) ≡ map (λ box. box.identifier) mail }
    ensures known { (id : ℕ) (mail : List Mail) → IsMail mail → IsMail (without_first id mail) }

    // Where the identifier has no request, nothing changes.
    ensures nothing { (id : ℕ) (mail : List Mail) → IsMail mail
        → unsent_of mail id ≡ [] → without_first id mail ≡ mail }
{}

/// Which identifiers are offered, by their first requests that are not sent.
pub fn offer_laws()
    ensures least { (layout : CycleLayout) (l : ℕ) (mail : List Mail) (at : ℕ) → IsMail mail
        → IsLeastWith (OffersIdentifier layout l mail at) (mail_offer layout l mail at) }
    ensures some { (layout : CycleLayout) (l : ℕ) (mail : List Mail) (at : ℕ) → IsMail mail
        → IsSome (mail_offer layout l mail at) ↔ ((id : ℕ) × OffersIdentifier layout l mail at id) }

    // What is offered has a mailbox.
    ensures among { (layout : CycleLayout) (l : ℕ) (mail : List Mail) (at id : ℕ) → OffersIdentifier layout l mail at id
        → Contains (map (λ box. box.identifier) mail) id }

    // The test is the relation.
    ensures may_start { (layout : CycleLayout) (c l : ℕ) (unsent : List Request) (at : ℕ)
        → IsTrue (may_start layout c l at unsent) ↔ ((request : Request) × MayStart layout c l unsent at request) }
{}

/// Requests that come while the bus runs. One that is put is behind the unsent ones of its identifier; those that come
/// later change nothing of what may start; and where all unsent ones have arrived, their arrivals may be forgotten.
pub fn online_laws()
    ensures put { (ids : List ℕ) (requests : List Request) (request : Request) (past : List TimedFrame)
        → All (λ id. least_asynchronous ≤ id) ids → WereRequests requests past
        → mail_after ids (requests ++ request ∷ []) past ≡ map (with_request request) (mail_after ids requests past) }
    ensures later { (layout : CycleLayout) (c l : ℕ) (requests later : List Request) (past : List TimedFrame)
        (id at : ℕ) (request : Request) → least_asynchronous ≤ id → WereRequests requests past → ComeLater at later
        → MayStart layout c l (unsent_after (requests ++ later) past id) at request
        ↔ MayStart layout c l (unsent_after requests past id) at request }
    ensures forgotten { (layout : CycleLayout) (l at : ℕ) (mail : List Mail)
        → All (λ box. HaveArrived at box.unsent) mail
        → mail_offer layout l (forgotten_mail mail) at ≡ mail_offer layout l mail at }
    ensures split { (at : ℕ) (requests : List Request) → AllPairs (λ one other. one.at ≤ other.at) requests
        → requests ≡ arrived_by at requests ++ coming_after at requests }
    ensures known { (ids : List ℕ) (requests : List Request) (past : List TimedFrame)
        → AllPairs (λ one other. one ≢ other) ids
        → All (λ id. least_asynchronous ≤ id) ids → All (λ id. id ≤ greatest_identifier) ids
        → IsMail (forgotten_mail (mail_after ids requests past)) }
{}
