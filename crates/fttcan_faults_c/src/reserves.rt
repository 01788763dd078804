//! How much longer a window has to be for disturbances, and how many it stands. Lengths are bit times.

ghost use Rattle.std.specs.Prelude.{◌≡◌, ◌≢◌, ◌+◌, ◌*◌, ◌<◌, ◌≤◌};
ghost use Rattle.disturbed_runs.specs.Disturbances.{cost_of_cut};

use c_values::{ExportRefusal, OK};
use disturbed_runs::{errors_within, reserve_for};

/// The most data bytes of a frame.
const MOST_BYTES: u8 = 8;

/// How much longer than its frames a window has to be for so many disturbances, in bit times, where no frame on the bus
/// has more data bytes.
#[unsafe(no_mangle)]
pub extern "C" fn fttcan_reserve(errors: u16, bytes: u8, reserve: &mut u32) -> u32
    ensures reserve { result ≡ 0 → (bytes ≤ 8) × (reserve.new ≡ errors * cost_of_cut bytes) }
    ensures refused { result ≢ 0 → (reserve.new ≡ reserve.old) × (result ≡ 2) × (bytes ≤ 8 → ⊥) }
{
    if bytes > MOST_BYTES {
        return ExportRefusal::Argument.status();
    }
    *reserve = reserve_for(errors, bytes);
    OK
}

/// For how many disturbances so many bit times are enough, where no frame on the bus has more data bytes.
#[unsafe(no_mangle)]
pub extern "C" fn fttcan_errors_within(reserve: u32, bytes: u8, errors: &mut u32) -> u32
    ensures enough { result ≡ 0 → (bytes ≤ 8) × (errors.new * cost_of_cut bytes ≤ reserve) }
    ensures most { result ≡ 0 → reserve < (errors.new + 1) * cost_of_cut bytes }
    ensures refused { result ≢ 0 → (errors.new ≡ errors.old) × (result ≡ 2) × (bytes ≤ 8 → ⊥) }
{
    if bytes > MOST_BYTES {
        return ExportRefusal::Argument.status();
    }
    *errors = errors_within(reserve, bytes);
    OK
}
