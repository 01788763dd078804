//! What a handle holds.

use live_node::LiveNode;

/// What a handle holds: a node.
#[derive(Drop)]
pub struct HeldNode {
    pub node: LiveNode,
}
