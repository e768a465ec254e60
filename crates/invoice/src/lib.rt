// The check of an invoice: all layers, one after the other.
#![tactic(auto)]

mod checking;

pub use checking::check;
