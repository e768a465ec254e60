//! Going through the tags of a document: attributes, and the ends of tags and of elements.
#![tactic(auto)]

mod attributes;
mod scan;
mod start;
#[cfg(test)]
mod tests;

pub use attributes::{AttributeSpan, Attributes, Span, attribute, tag_end};
pub use scan::{after, closing};
pub use start::content_start;
