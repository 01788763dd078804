//! What is kept of a master while it does not run.

ghost use Rattle.std.specs.Prelude.{◌≡◌, ◌≢◌, ℕ, [], List, Some, None, IfErr, IfOk};
ghost use Rattle.master_core.specs.Cores.{CoreView};
ghost use Rattle.master_handle.specs.declared.held.HandleContent.{HandleContent as HeldOf};
ghost use Rattle.master_handle.specs.declared.held.HandleContent.TheVariants.{Master};
ghost use Rattle.c_values.specs.declared.refusal.ExportRefusal.{ExportRefusal as RefusalOf};
ghost use Rattle.fttcan_c.specs.Mastering.{Holds};
ghost use Rattle.fttcan_c.specs.Reading.{RefusesRead};
ghost use Rattle.c_values.specs.Refused.{status_of};
ghost use Rattle.c_values.specs.Room.{IsRoomFilled, IsRoomShort};
ghost use Rattle.fttcan_c.specs.Saving.{AreBytesOfCore, HasMasterBytes, IsCoreOfBytes, IsForC, IsRestored, RefusesRestore};

use admission::Trail;
use c_values::{ExportRefusal, OK, put};
use master_core::Core;
use master_handle::{FttHandle, HandleContent};
use saved_state::laws::one_state;
use saved_state::{ReadFault, read, write};
use std::alloc::{AllocError, Global};
use std::mem;
use trigger_kind::are_slots;

/// The bytes of what is saved of a core.
fn bytes_of_core(alloc: Global, core: &Core) -> Result<Vec<u8>, AllocError>
    ensures bytes { IfOk result (λ bytes. AreBytesOfCore bytes.items core.now) }
{
    one_state();
    let saved = core.save(alloc)?;
    let bytes = write(alloc, &saved)?;
    Ok(bytes)
}

/// The bytes of the state of a master.
fn bytes_in(alloc: Global, held: &HandleContent) -> Result<Vec<u8>, ExportRefusal>
    ensures bytes { IfOk result (λ bytes. HasMasterBytes bytes.items held.now) }
    ensures refused { IfErr result (RefusesRead held.now) }
{
    match held {
        HandleContent::Master { core, trail: _ } => {
            let bytes = bytes_of_core(alloc, core)?;
            Ok(bytes)
        }
        _ => Err(ExportRefusal::Closed),
    }
}

/// The state of a master as bytes, of which `fttcan_master_restore` makes it again: 112, and 80 more for each entry that
/// it keeps. No other state has these bytes. The trail is not among them. `len` is how many they are, also where the room is
/// too small.
#[unsafe(no_mangle)]
pub extern "C" fn fttcan_master_save(
    m: &mut FttHandle,
    alloc: Global,
    room: &mut [u8],
    len: &mut usize,
) -> u32
    ensures same { m.new.value ≡ m.old.value }
    ensures bytes { result ≡ 0 → Holds m.old.value (λ held. (bytes : List ℕ) × HasMasterBytes bytes held
        × IsRoomFilled bytes room.old room.new len.new) }
    ensures short { result ≡ 5 → Holds m.old.value (λ held. (bytes : List ℕ) × HasMasterBytes bytes held
        × IsRoomShort bytes room.old room.new len.new) }
    ensures refused { result ≢ 0 → result ≢ 5 → (room.new ≡ room.old) × (len.new ≡ len.old) }
    ensures why { result ≢ 0 → result ≢ 5 → (held : HeldOf) → m.old.value ≡ Some held
        → (refusal : RefusalOf) × (result ≡ status_of refusal) × RefusesRead held refusal }
    ensures empty { m.old.value ≡ None → result ≡ 7 }
{
    let Some(held) = mem::replace(m, FttHandle::none()).into_box(alloc) else {
        return ExportRefusal::Closed.status();
    };
    let answer = bytes_in(alloc, &held);
    *m = FttHandle::of(held);
    match answer {
        Ok(bytes) => match put(bytes.as_slice(), room, len) {
            Ok(()) => OK,
            Err(refusal) => refusal.status(),
        },
        Err(refusal) => refusal.status(),
    }
}

/// The core that was saved as these bytes.
fn core_in(alloc: Global, bytes: &[u8]) -> Result<Core, ExportRefusal>
    ensures core { IfOk result (IsCoreOfBytes bytes.now) }
    ensures refused { IfErr result (RefusesRestore bytes.now) }
{
    let saved = match read(alloc, bytes) {
        Ok(saved) => saved,
        Err(ReadFault::NoState) => return Err(ExportRefusal::Text),
        Err(ReadFault::Memory) => return Err(ExportRefusal::Memory),
    };
    if !saved.forgets || !are_slots(saved.rules.slots) {
        return Err(ExportRefusal::Text);
    }
    match Core::restore(alloc, saved)? {
        Some(core) => Ok(core),
        None => Err(ExportRefusal::Text),
    }
}

/// The master that was saved as these bytes, in a box of its own. It has no answer yet, and so no trail.
fn restored(alloc: Global, bytes: &[u8]) -> Result<Box<HandleContent>, ExportRefusal>
    ensures restored { IfOk result (λ held. IsRestored bytes.now held.value) }
    ensures refused { IfErr result (RefusesRestore bytes.now) }
{
    let core = core_in(alloc, bytes)?;
    let trail = Trail::of(Vec::new(alloc));
    match Box::new(alloc, HandleContent::Master { core, trail }) {
        Ok(held) => Ok(held),
        Err(_) => Err(ExportRefusal::Memory),
    }
}

/// Makes the master that has these bytes, where the handle holds nothing: of what `fttcan_master_save` wrote, the one that
/// was saved, without its trail. The bytes are not trusted. Of any bytes that are not refused it makes a master that
/// misses no deadline.
///
/// It checks the checksum, the form, the rules, the table and the state, and plans the table once. It answers `Text` exactly
/// where no master has these bytes: where they are not of the form, a slot or a node of an entry is none of the rules, a
/// deadline would be missed, the plan does not repeat within the horizon, or there are more than 4,096 entries.
///
/// It cannot check where the bytes come from, since the checksum is no signature: whether they are the newest, whether they
/// are of this network, and whether any history of answered changes and opened cycles ends in this state.
#[unsafe(no_mangle)]
pub extern "C" fn fttcan_master_restore(m: &mut FttHandle, alloc: Global, bytes: &[u8]) -> u32
    ensures restored { result ≡ 0 → (m.old.value ≡ None) × Holds m.new.value (IsRestored bytes.now) }
    ensures same { result ≢ 0 → m.new.value ≡ m.old.value }
    ensures taken { result ≡ 8 → (held : HeldOf) × (m.old.value ≡ Some held) }
    ensures free { result ≢ 8 → m.old.value ≡ None }
    ensures again { (core : CoreView) → IsForC core → AreBytesOfCore bytes.now core
        → (result ≢ 9) × (result ≡ 0 → m.new.value ≡ Some (Master core [])) }
    ensures refused { result ≢ 0 → result ≢ 8 → (refusal : RefusalOf) × (result ≡ status_of refusal)
        × RefusesRestore bytes.now refusal }
{
    if let Some(held) = mem::replace(m, FttHandle::none()).into_box(alloc) {
        *m = FttHandle::of(held);
        return ExportRefusal::Open.status();
    }
    match restored(alloc, bytes) {
        Ok(held) => {
            *m = FttHandle::of(held);
            OK
        }
        Err(refusal) => refusal.status(),
    }
}
