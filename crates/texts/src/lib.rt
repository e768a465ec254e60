// The cadena and the fair copy of a document, sent to any sink, under a catalogue set or by the shape alone.
#![tactic(auto)]

mod cadenas;
mod copies;
mod shape;
mod shape_texts;

pub use cadenas::cadena;
pub use copies::{fair_copy, fair_copy_length};
pub use shape::Shape;
