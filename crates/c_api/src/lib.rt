// The check and the two texts of a document, under the ruled set, for callers in C.
#![tactic(auto)]

mod exports;

pub use exports::{dunshebi_cadena, dunshebi_check, dunshebi_fair_copy};
