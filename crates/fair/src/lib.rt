//! The fair copy of a document, written byte by byte to any writer, sent to any sink, and counted.
#![tactic(auto)]

mod copy;
mod rows;
mod sending;
mod values;

pub use copy::{FairCopy, write};
pub use sending::{fair_copy_length, send_fair_copy};
