// Catalogue sets: the ruled set, the set of a catalogue text, and the check of such a text.
#![tactic(auto)]

mod checking;
mod found;
mod index;
mod lines;
mod ruled;
mod sets;
mod table;

pub use checking::check;
pub use found::{Finding, look_up};
pub use ruled::Ruled;
pub use sets::CatalogueSet;
pub use table::CatalogueText;
