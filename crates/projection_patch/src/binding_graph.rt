// The target of a binding. After crates/prom-ui/src/binding_graph.rs.
use crate::contract_primitives::StaticNodeId;

#[derive(Clone, Copy)]
pub struct BindingSlot(pub u32);

#[derive(Clone, Copy)]
pub struct BindingTarget {
    pub node: StaticNodeId,
    pub slot: BindingSlot,
}
