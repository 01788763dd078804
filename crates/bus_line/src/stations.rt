//! The stations on a bus, as the bus sees them.

ghost use Rattle.std.specs.Prelude.{◌≡◌, ◌<◌, ◌≤◌, All, Contains};
ghost use Rattle.profile.specs.Limits.{greatest_identifier, times_end};
ghost use Rattle.bus_line.specs.Stations.{IsOffered, IsSending, IsWake, Line};

use arbitration::Contenders;
use can_frame::{Frame, TimedFrame};

/// Stations that share a bus. Their meaning is a state: what they offer depends on it and on the
/// time alone, and each frame that is sent makes the next state from it. All times are bit times
/// below 2^60.
pub trait Stations {
    ghost State: { Type 0 };

    ghost line: { Line State };

    ghost state: { Self → State };

    /// What else is known of the stations, and no frame changes.
    ghost Fixed: { Type 0 };

    ghost fixed: { Self → Fixed };

    /// Makes `ids` the list of the identifiers that are offered at a time: at most 32, distinct,
    /// from 0x000 to 0x7EF.
    fn offers(&self, at: u64, ids: &mut Contenders)
        requires time { at < times_end }
        ensures offered { ids.new ≡ line.offered (state self.now) at }
        ensures range { All (λ id. id ≤ greatest_identifier) ids.new };

    /// The least time after `at` at which something is offered while nothing is sent; `None`
    /// exactly where nothing is offered at any later time.
    fn wake(&self, at: u64) -> Option<u64>
        requires time { at < times_end }
        ensures wake { IsWake (line.offered (state self.now)) at result };

    /// The frame that is offered at a time under an identifier.
    fn frame(&self, at: u64, id: u16) -> Frame
        requires time { at < times_end }
        requires offered { Contains (line.offered (state self.now) at) id }
        ensures framed { result ≡ line.framed (state self.now) at id }
        ensures identifier { result.identifier ≡ id };

    /// Tells all stations of a frame that is sent.
    fn sent(&mut self, sent: &TimedFrame)
        requires time { sent.now.start < times_end }
        requires sending { IsSending line (state self.old) sent.now }
        ensures next { state self.new ≡ line.next (state self.old) sent.now }
        ensures fixed { fixed self.new ≡ fixed self.old };
}
