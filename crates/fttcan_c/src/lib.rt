//! fttcan for C: frames, the admission of changes, plans and their checker.
//!
//! Each export answers a status, and writes its results through references. It tests all that it is handed. After a
//! status other than `OK` every result is as before, unless the export says otherwise.
#![tactic(auto)]

mod admit;
mod apart;
mod bounds;
mod checked;
mod following;
mod frames;
mod hearing;
pub mod laws;
mod master;
mod reading;
mod saving;
mod settling;
mod triggers;
mod version;

pub use admit::{fttcan_decide, fttcan_open};
pub use apart::{
    fttcan_master_snapshot, fttcan_plan_apart, fttcan_planned_free, fttcan_planned_verdict,
    fttcan_snapshot_free,
};
pub use async_bound::BurstStream;
pub use bounds::fttcan_async_bound;
pub use c_values::{
    ExportRefusal, FttBreach, FttEntry, FttFollow, FttFrame, FttLayout, FttMask, FttOp, FttOrder,
    FttPlaced, FttPlan, FttRules, FttState, FttTrigger, FttVerdict, OK,
};
pub use checked::fttcan_check;
pub use following::{
    fttcan_standby_change, fttcan_standby_free, fttcan_standby_new, fttcan_standby_next,
    fttcan_standby_take_over,
};
pub use frames::{
    fttcan_fits, fttcan_payload, fttcan_read_wire, fttcan_wire_bits, fttcan_wire_length,
};
pub use hearing::{fttcan_standby_trigger, fttcan_standby_trigger_reserved};
pub use master::{fttcan_master_free, fttcan_master_new, fttcan_master_open, fttcan_master_submit};
pub use master_handle::FttHandle;
pub use reading::{
    fttcan_master_certificate, fttcan_master_look, fttcan_master_next, fttcan_master_planned,
    fttcan_master_rules, fttcan_master_table, fttcan_master_trail,
};
pub use saving::{fttcan_master_restore, fttcan_master_save};
pub use settling::fttcan_master_settle;
pub use triggers::{fttcan_trigger_decode, fttcan_trigger_encode, fttcan_trigger_encode_reserved};
pub use version::fttcan_version;
