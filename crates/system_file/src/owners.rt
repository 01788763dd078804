//! A list of owners that a value holds.

use async_window::Owner;
use items::Items;

/// A list of owners that a value holds. Contracts see the list.
pub type OwnerList = Items<Owner>;
