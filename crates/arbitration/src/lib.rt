//! Arbitration on a CAN bus (CAN 2.0 Part A, arbitration): the senders that begin together send
//! their identifiers bit by bit, and the bus is the wired AND of what they send. So the one with
//! the least identifier is left.
#![tactic(auto)]

ghost use Rattle.std.specs.Prelude.{◌≡◌, ◌<◌, ◌≤◌, ◌↔◌, [], All, IfSome, IsNone, length, slice_index};
ghost use Rattle.arbitration.specs.Arbitration.{AreDistinct, IsLeast};

mod contender_list;

pub use contender_list::Contenders;

/// Decides between the contenders, whose identifiers are sent most significant bit first, and gives
/// the place of the one that is left, whose identifier is the least. `None` is the answer where
/// nobody contends.
///
/// Identifiers are below 0x800, and no two senders share one: they would both go on into the data
/// field.
pub fn arbitrate(ids: &[u16]) -> Option<usize>
    requires distinct { AreDistinct ids.now }
    requires eleven_bits { All (λ id. id < 0x800) ids.now }
    ensures none { IsNone result ↔ (ids.now ≡ []) }
    ensures within { IfSome result (λ place. place < length ids.now) }
    ensures least { IfSome result (λ place. IsLeast ids.now (slice_index ids.now place)) }
{
    if ids.is_empty() {
        return None;
    }
    let mut winner = 0;
    for place in 1..ids.len() {
        winner = lesser(ids, winner, place);
    }
    Some(winner)
}

/// Which of two places has the lesser identifier.
fn lesser(ids: &[u16], one: usize, other: usize) -> usize
    requires one { one < length ids.now }
    requires other { other < length ids.now }
    ensures within { result < length ids.now }
    ensures one { slice_index ids.now result ≤ slice_index ids.now one }
    ensures other { slice_index ids.now result ≤ slice_index ids.now other }
{
    if ids[other] < ids[one] { other } else { one }
}
