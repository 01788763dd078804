//! Who owns asynchronous identifiers, as C hands it in.

ghost use Rattle.std.specs.Prelude.{◌≡◌, ◌≢◌, ◌<◌, ℕ, ◌↔◌, All, AllPairs, IsTrue, length, slice_index_or, true, false};
ghost use Rattle.profile.specs.Limits.{most_nodes};
ghost use Rattle.async_window.specs.Owners.{AreOwners};
ghost use Rattle.async_window.specs.declared.request.Owner.{Owner as OwnerOf};
ghost use Rattle.fttcan_node_c.specs.Nodes.{AreOwnersIn, IsOwnerIn};

use async_window::Owner;
use profile::{GREATEST_IDENTIFIER, LEAST_ASYNCHRONOUS, MOST_NODES};

/// Whether an owner has an asynchronous identifier, and a number that a node can have.
fn is_owner(owner: &Owner) -> bool
    ensures owner { IsTrue result ↔ IsOwnerIn owner.now }
{
    LEAST_ASYNCHRONOUS <= owner.id && owner.id <= GREATEST_IDENTIFIER && owner.node < MOST_NODES
}

/// Whether the owner at a place has another identifier than all before it.
fn is_new(owners: &[Owner], place: usize) -> bool
    requires place { place < length owners.now }
    ensures known { result ≡ true → (earlier : ℕ) (d : OwnerOf) → earlier < place
        → (slice_index_or owners.now earlier d).id ≢ (slice_index_or owners.now place d).id }
    ensures unknown { result ≡ false → AllPairs (λ one other. one.id ≢ other.id) owners.now → ⊥ }
{
    for earlier in 0..place {
        if owners[earlier].id == owners[place].id {
            return false;
        }
    }
    true
}

/// Whether no two have one identifier.
fn are_distinct(owners: &[Owner]) -> bool
    ensures known { result ≡ true → AllPairs (λ one other. one.id ≢ other.id) owners.now }
    ensures unknown { result ≡ false → AllPairs (λ one other. one.id ≢ other.id) owners.now → ⊥ }
{
    for place in 0..owners.len() {
        if !is_new(owners, place) {
            return false;
        }
    }
    true
}

/// Whether each owner is in range, and no two have one identifier.
pub fn are_owners(owners: &[Owner]) -> bool
    ensures owners { IsTrue result ↔ AreOwnersIn owners.now }
{
    owners.iter().all(is_owner) && are_distinct(owners)
}
