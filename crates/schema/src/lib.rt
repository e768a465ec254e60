// The schema of an invoice: the attributes and the children of its nodes.
#![tactic(auto)]

mod attributes;
mod places;
pub mod row_numbers;

pub use attributes::{Row, rows};
pub use places::{Child, children, needs_child, parent, placed, same_node, tag};
