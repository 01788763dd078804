//! Laws about the bytes of saved states. Each function has an empty body but for calls of other laws, and its contract is
//! the law.

ghost use Rattle.std.specs.Prelude.{◌≡◌, ℕ, List};
ghost use Rattle.master_core.specs.declared.saved.Saved.{Saved};
ghost use Rattle.master_core.specs.Cores.{CoreView, IsCore, saved_of};
ghost use Rattle.saved_state.specs.Bytes.{AreBytesOf};

use master_core::laws::saved_cores;

/// Bytes are those of one state, and of one core.
pub fn one_state()
    ensures states { (one other : Saved) (bytes : List ℕ) → AreBytesOf one bytes → AreBytesOf other bytes → one ≡ other }
    ensures cores { (one other : CoreView) (bytes : List ℕ) → IsCore one → IsCore other
        → AreBytesOf (saved_of one) bytes → AreBytesOf (saved_of other) bytes → one ≡ other }
{
    saved_cores();
}
