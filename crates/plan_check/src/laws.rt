//! Laws about the definitions of this crate. Each function has an empty body, and its contract is the law.

ghost use Rattle.std.specs.Prelude.{◌≡◌, ℕ, ◌<◌, List, All, None};
ghost use Rattle.requirement_table.specs.declared.entries.Placed.{Placed};
ghost use Rattle.bit_sets.specs.Sets.{has_bit};
ghost use Rattle.requirement_table.specs.Table.{IsWellPlaced};
ghost use Rattle.plan_check.specs.declared.breach.Breach.{Breach};
ghost use Rattle.plan_check.specs.declared.plan_runs.MaskRun.{MaskRun};
ghost use Rattle.plan_check.specs.declared.plan_runs.Version.{Version};
ghost use Rattle.plan_check.specs.Breaches.{IsBreach, IsGoodAt};
ghost use Rattle.plan_check.specs.Certificate.{CertificateView, IsCertificate};
ghost use Rattle.plan_check.specs.PlanKept.{HasPending, IsTaken};
ghost use Rattle.plan_check.specs.PlanText.{AreListed, listed_runs, mask_bound, spread};

/// Of all breaches of a certificate only one is the first: which one the checker answers, and with which values, follows
/// from the table, the window and the certificate.
pub fn one_breach()
    ensures one { (placed : List Placed) (window : ℕ) (certificate : CertificateView) (one other : Breach)
        → IsBreach placed window certificate one → IsBreach placed window certificate other → one ≡ other }
{}

/// A certificate that is taken has no breach: every cycle is good, those of the repeated part at any cycle number. And a
/// certificate without a breach is taken. So `yes` and a breach never stand for one certificate, and one of them does.
pub fn taken_without_breach()
    ensures none { (placed : List Placed) (window : ℕ) (certificate : CertificateView) (breach : Breach)
        → IsWellPlaced placed → HasPending placed certificate.from (has_bit certificate.pending)
        → IsTaken placed window certificate → ¬ IsBreach placed window certificate breach }
    ensures good { (placed : List Placed) (window : ℕ) (certificate : CertificateView) (n : ℕ)
        → IsWellPlaced placed → HasPending placed certificate.from (has_bit certificate.pending)
        → IsTaken placed window certificate → IsGoodAt placed window certificate n }
    ensures taken { (placed : List Placed) (window : ℕ) (certificate : CertificateView)
        → IsWellPlaced placed → HasPending placed certificate.from (has_bit certificate.pending)
        → IsCertificate certificate.from certificate.first certificate.masks
        → ((breach : Breach) → ¬ IsBreach placed window certificate breach)
        → IsTaken placed window certificate }
{}

/// The runs that have a line in a plan text, in either version: together they have the masks in their order. Each has
/// at least one cycle. In version 1 it is just one, and in version 2 its mask is not that of the run before it. No other
/// list of such runs has these masks.
pub fn runs()
    ensures masks { (version : Version) (masks : List ℕ) → spread (listed_runs version masks) ≡ masks }
    ensures listed { (version : Version) (masks : List ℕ) → All (λ mask. mask < mask_bound version) masks
        → AreListed version None (listed_runs version masks) }
    ensures only { (version : Version) (runs : List MaskRun) → AreListed version None runs
        → listed_runs version (spread runs) ≡ runs }
{}
