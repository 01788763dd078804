//! The frames of a trace, cycle by cycle: each cycle begins with its trigger. A trigger is here the first trigger frame
//! of a cycle, which alone has identifier 0.

ghost use Rattle.std.specs.Prelude.{◌≡◌, ℕ, ◌+◌, ◌≤◌, List, length, take, drop};
ghost use Rattle.std.specs.List.{position_or_len};
ghost use Rattle.can_frame.specs.declared.data_frame.TimedFrame.{TimedFrame};
ghost use Rattle.bus_trace.specs.Log.{started_in};
ghost use Rattle.bus_trace.specs.Logged.{IsLeft, is_trigger};

use can_frame::TimedFrame;

/// Whether the frame is a trigger: it has identifier 0.
fn is_trigger(sent: &TimedFrame) -> bool
    ensures trigger { result ≡ is_trigger sent.now }
{
    sent.frame.id() == 0
}

/// The number of frames before the first trigger.
pub fn until_trigger(frames: &[TimedFrame]) -> usize
    ensures place { result ≡ position_or_len is_trigger frames.now }
    ensures within { result ≤ length frames.now }
{
    for (place, sent) in frames.iter().enumerate() {
        if is_trigger(sent) {
            return place;
        }
    }
    frames.len()
}

/// The number of frames from the first one, a trigger, up to the next trigger; it is 0 where none is left.
pub fn cycle_len(left: &[TimedFrame]) -> usize
    ensures within { result ≤ length left.now }
    ensures frames { (trace : List TimedFrame) (next : ℕ) → IsLeft trace next left.now
        → take result left.now ≡ started_in next 0 trace }
    ensures left { (trace : List TimedFrame) (next : ℕ) → IsLeft trace next left.now
        → IsLeft trace (next + 1) (drop result left.now) }
{
    match left {
        [] => 0,
        [_, later @ ..] => 1 + until_trigger(later),
    }
}
