//! A value behind a pointer that C can hold.

ghost use Rattle.std.specs.Prelude.{◌≡◌, Option, Some, None, option_map};
ghost use Rattle.master_handle.specs.declared.held.HandleContent.{HandleContent as HeldOf};

use crate::held::HandleContent;
use crate::loose::Loose;
use std::alloc::Global;
use std::marker::Model;
use std::ptr::null_mut;

/// Something that is held, or nothing: the null pointer. C holds it as a struct of one pointer, and never looks behind
/// that.
#[repr(C)]
#[derive(Drop)]
pub struct FttHandle {
    at: *mut u8,
    pub ghost value: { Option HeldOf },
}

impl Model for FttHandle {
    ghost use Rattle.master_handle.specs.Owned.{owned};
    ghost use Rattle.master_handle.specs.contracts.held.HandleContent.{the_row};

    ghost also_owns = { λ h. owned the_row h.at h.value };
}

impl FttHandle {
    /// Nothing.
    pub fn none() -> FttHandle
        ensures none { result.value ≡ None }
    {
        FttHandle { at: null_mut() }
    }

    fn of_loose(loose: Loose<HandleContent, Global>) -> FttHandle
        ensures { result.value ≡ Some loose.value }
    {
        let Loose { at, alloc: _ } = loose;
        FttHandle { at: at as *mut u8 }
    }

    fn into_loose(self, alloc: Global) -> Option<Loose<HandleContent, Global>>
        ensures { option_map (λ b. b.value) result ≡ self.value }
    {
        let FttHandle { at } = self;
        if at.is_null() {
            None
        } else {
            Some(Loose {
                at: at as *mut HandleContent,
                alloc,
            })
        }
    }

    /// What the box holds, which C holds from now on.
    pub fn of(held: Box<HandleContent>) -> FttHandle
        ensures held { result.value ≡ Some held.value }
    {
        FttHandle::of_loose(Loose::of(held))
    }

    /// What is held, where something is.
    pub fn into_box(self, alloc: Global) -> Option<Box<HandleContent>>
        ensures held { option_map (λ b. b.value) result ≡ self.value }
    {
        match self.into_loose(alloc) {
            Some(loose) => Some(loose.into_box()),
            None => None,
        }
    }
}
