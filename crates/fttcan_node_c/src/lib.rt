//! fttcan for C: a node, which learns its entries, takes requests and bytes, hears triggers, and says what is to be sent.
//!
//! Each export answers a status, and writes its results through references. It tests all that it is handed. After a
//! status other than `OK` every result is as before, unless the export says otherwise. Times are bit times from the
//! start of the open cycle.
#![tactic(auto)]

mod applying;
mod flying;
mod made;
mod owed;
mod owners;
mod plain;
mod sending;
mod telling;

pub use applying::fttcan_apply;
pub use async_window::Owner;
pub use c_values::{ExportRefusal, FttFrame, FttLayout, FttMask, FttOp, FttPlaced, FttTrigger, OK};
pub use flying::{fttcan_node_load, fttcan_node_sent, fttcan_node_withdrawn};
pub use made::{fttcan_node_free, fttcan_node_learn, fttcan_node_new};
pub use node_handle::FttNode;
pub use owed::{
    fttcan_node_due, fttcan_node_next, fttcan_node_opened, fttcan_node_slot_due,
    fttcan_node_slot_frame,
};
pub use plain::{FULL, FttDue, FttLoaded, FttOffer, FttSettings, FttTicket};
pub use sending::{fttcan_node_frame, fttcan_node_offer, fttcan_node_wake};
pub use telling::{
    fttcan_node_drop, fttcan_node_go_to, fttcan_node_put, fttcan_node_set, fttcan_node_trigger,
    fttcan_node_waiting,
};
