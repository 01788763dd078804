//! What a window needs for disturbances. Lengths are bit times.

ghost use Rattle.std.specs.Prelude.{◌≡◌, ◌+◌, ◌*◌, ◌<◌, ◌≤◌};
ghost use Rattle.disturbed_runs.specs.Disturbances.{cost_of_cut, suspend_time};

/// The worst length of a frame without data bytes, and of each data byte.
const SHORTEST: u32 = 55;

const BYTE: u32 = 10;

/// What a recovery takes beside the intermission, which is counted with a frame.
const RECOVERY: u32 = 28;

/// How long an error passive sender waits behind each of its frames.
const SUSPEND: u32 = 8;

/// What a disturbance costs at most where no frame has more data bytes, in bit times: what was sent of the frame, and the
/// recovery. That is 163 for 8 bytes.
pub fn cost_of_cut(bytes: u8) -> u32
    ensures value { result ≡ cost_of_cut bytes }
{
    SHORTEST + BYTE * u32::from(bytes) + RECOVERY
}

/// How many bit times longer a window has to be than its frames for so many disturbances, if no frame in it has more data
/// bytes.
pub fn reserve_for(errors: u16, bytes: u8) -> u32
    ensures value { result ≡ errors * cost_of_cut bytes }
{
    u32::from(errors) * cost_of_cut(bytes)
}

/// For how many disturbances so many bit times of room are enough.
pub fn errors_within(room: u32, bytes: u8) -> u32
    ensures enough { result * cost_of_cut bytes ≤ room }
    ensures most { room < (result + 1) * cost_of_cut bytes }
{
    room / cost_of_cut(bytes)
}

/// How many bit times longer a window has to be beside that, if so many of its frames have error passive senders.
pub fn waits_of(passive: u16) -> u32
    ensures value { result ≡ passive * suspend_time }
{
    u32::from(passive) * SUSPEND
}
