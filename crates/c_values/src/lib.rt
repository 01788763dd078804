//! What crosses to C: plain structs, what they stand for, the statuses, and the room that C lends.
#![tactic(auto)]

mod plain;
mod plain_in;
mod plain_out;
mod refusal;
mod room;

pub use plain::{
    FttBreach, FttEntry, FttFollow, FttFrame, FttLayout, FttMask, FttOp, FttOrder, FttPlaced,
    FttPlan, FttRules, FttState, FttTrigger, FttVerdict,
};
pub use plain_in::{
    are_frames, change_in, frame_in, is_mask, layout_in, mask_in, rules_in, table_in,
};
pub use plain_out::{
    breach_out, frame_out, mask_out, masks_out, rules_out, table_out, verdict_out,
};
pub use refusal::{ExportRefusal, OK};
pub use room::put;
