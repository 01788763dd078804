//! A list of requests that a value holds.

use async_window::Request;
use items::Items;

/// A list of requests that a value holds. Contracts see the list.
pub type RequestList = Items<Request>;
