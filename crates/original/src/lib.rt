//! The cadena original of a document, written to any writer and sent to any sink.
#![tactic(auto)]

mod cadena;
mod fields;
mod nodes;
mod sending;

pub use cadena::{Cadena, write};
pub use sending::send_cadena;
