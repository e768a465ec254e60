// The layers of a judgement up to values: the names and the values of a whole document, all of them in order, and the shape, which asks no catalogue.
#![tactic(auto)]

mod attribute_names;
mod attribute_values;
mod currency;
mod judging;
mod shape;

pub use attribute_names::names;
pub use attribute_values::values;
pub use judging::judge_layers;
pub use shape::judge_shape;
