//! The room that C lends for a result.

ghost use Rattle.std.specs.Prelude.{◌≡◌, IfErr, OnOk};
ghost use Rattle.c_values.specs.declared.refusal.ExportRefusal.TheVariants.{Room};
ghost use Rattle.c_values.specs.Room.{IsRoomFilled, IsRoomShort};

use crate::refusal::ExportRefusal;

/// Puts items at the front of the caller's room, and says how many they are.
///
/// # Errors
///
/// `Room` where they are more than there is room for. The count is written all the same.
pub fn put<T: Copy>(items: &[T], room: &mut [T], count: &mut usize) -> Result<(), ExportRefusal>
    ensures filled { OnOk result (IsRoomFilled items.now room.old room.new count.new) }
    ensures short { IfErr result (λ refusal. (refusal ≡ Room) × IsRoomShort items.now room.old room.new count.new) }
{
    *count = items.len();
    if items.len() > room.len() {
        return Err(ExportRefusal::Room);
    }
    room[..items.len()].copy_from_slice(items);
    Ok(())
}
