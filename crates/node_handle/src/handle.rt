//! A value behind a pointer that C can hold.

ghost use Rattle.std.specs.Prelude.{◌≡◌, Option, Some, None, option_map};
ghost use Rattle.node_handle.specs.declared.held.HeldNode.{HeldNode as HeldOf};

use crate::held::HeldNode;
use crate::loose::Loose;
use std::alloc::Global;
use std::marker::Model;
use std::ptr::null_mut;

/// Something that is held, or nothing: the null pointer. C holds it as a struct of one pointer, and never looks behind
/// that.
#[repr(C)]
#[derive(Drop)]
pub struct FttNode {
    at: *mut u8,
    pub ghost value: { Option HeldOf },
}

impl Model for FttNode {
    ghost use Rattle.node_handle.specs.Owned.{owned};
    ghost use Rattle.node_handle.specs.contracts.held.HeldNode.{the_row};

    ghost also_owns = { λ h. owned the_row h.at h.value };
}

impl FttNode {
    /// Nothing.
    pub fn none() -> FttNode
        ensures none { result.value ≡ None }
    {
        FttNode { at: null_mut() }
    }

    fn of_loose(loose: Loose<HeldNode, Global>) -> FttNode
        ensures { result.value ≡ Some loose.value }
    {
        let Loose { at, alloc: _ } = loose;
        FttNode { at: at as *mut u8 }
    }

    fn into_loose(self, alloc: Global) -> Option<Loose<HeldNode, Global>>
        ensures { option_map (λ b. b.value) result ≡ self.value }
    {
        let FttNode { at } = self;
        if at.is_null() {
            None
        } else {
            Some(Loose {
                at: at as *mut HeldNode,
                alloc,
            })
        }
    }

    /// What the box holds, which C holds from now on.
    pub fn of(held: Box<HeldNode>) -> FttNode
        ensures held { result.value ≡ Some held.value }
    {
        FttNode::of_loose(Loose::of(held))
    }

    /// What is held, where something is.
    pub fn into_box(self, alloc: Global) -> Option<Box<HeldNode>>
        ensures held { option_map (λ b. b.value) result ≡ self.value }
    {
        match self.into_loose(alloc) {
            Some(loose) => Some(loose.into_box()),
            None => None,
        }
    }
}
