// A cursor over the nodes of a document, in document order.
#![tactic(auto)]

mod cursor;
mod event;

pub use cursor::{Walk, opens_each_node};
pub use event::{Event, Opened};

#[cfg(test)]
mod tests;
