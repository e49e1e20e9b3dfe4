//! What every crate of the file system speaks of: geometries and the places of an image, nodes and
//! their faults, refusals and damage. `specs/` has the definitions of places, check word and
//! spelling; `docs/FORMAT.md` says the same in words.
#![tactic(auto)]

mod damage;
mod form;
mod geometry;
mod laws;
mod node;
mod refusal;
mod way;

pub use damage::{Damage, DamageKind};
pub use form::Form;
pub use geometry::{BadGeometry, Geometry, Request};
pub use laws::{
    each_block_has_a_bit, fewer_members_count_no_more, numbers_count_as_positions, position_counts,
    positions_are_on_chains, reads_the_spelled_pointer_node, same_members_count_the_same,
    same_position_is_equality,
};
pub use node::{Head, Master, Metaroot, NodeFault, NodeType};
pub use refusal::Refusal;
pub use way::Way;
