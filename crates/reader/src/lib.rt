//! Judging the tree of a document, and the names of the attributes of its nodes.
#![tactic(auto)]

mod lent;
mod names;
mod nodes;
#[cfg(test)]
mod tests;

pub use lent::{LentSlots, lent_slots};
pub use names::{Slots, attributes};
pub use nodes::tree;
