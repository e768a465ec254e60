// The judgement of one attribute value, by its kind and its catalogue.
#![tactic(auto)]

mod judgement;

pub use judgement::{ValueFault, judge};
