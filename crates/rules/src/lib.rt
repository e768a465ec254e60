// The rule book: what documents, values, texts, catalogues and faults are.
#![tactic(auto)]

mod examples;
mod grounds;
mod schema;

pub use examples::examples_hold;
pub use grounds::{Fault, Layer, Rule};
pub use schema::{Catalogue, FixedText, Kind, Node};
