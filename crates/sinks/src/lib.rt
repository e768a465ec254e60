// Sinks that take a text byte by byte, and the writing of texts to them.
#![tactic(auto)]

mod buffer;
mod counter;
mod matcher;
mod sink;
#[cfg(test)]
mod tests;
mod text;
mod through;
mod writer;

pub use buffer::Buffer;
pub use counter::Counter;
pub use matcher::Matcher;
pub use sink::Sink;
pub use text::{Bytes, Text, text_length};
pub use through::{Through, send_text, send_to};
pub use writer::{Refused, Writer, send};
