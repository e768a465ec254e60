//! The check of markup, with the exact place of a refusal, and the laws of well-marked text.
#![tactic(auto)]

mod bytes;
mod document;
mod laws;
mod reader;
mod tag;
#[cfg(test)]
mod tests;

pub use document::check;
pub use laws::{beginnings_are_decided, every_document_has_its_verdict, markup_is_decided};
