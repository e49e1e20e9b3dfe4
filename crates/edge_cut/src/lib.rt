//! Data blocks of a node cut off from an index on, over any store.
#![tactic(auto)]

mod cost;
mod cut;
mod drop;
mod entries;
mod places;
mod through;

pub use cost::cut_cost;
pub use cut::cut_from;
