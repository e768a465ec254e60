// What follows from the rules: one function for each law, whose answer says only that the law holds.
#![tactic(auto)]

mod catalogues;
mod fair_copy;
mod grounds;
mod kinds;
mod readings;
mod schema;
mod shape;

pub use catalogues::{
    catalogue_test_is_exact, every_catalogue_is_judged, set_knows_what_it_holds, sets_are_bounded,
};
pub use fair_copy::{
    examples_pass, fair_copy_is_never_longer, fair_copy_reads_back, fair_copy_stays_lawful,
    fair_copy_tells_values,
};
pub use grounds::{layers_are_decided, one_catalogue_first, one_verdict_at_most};
pub use kinds::{every_kind_is_lawful, kept_forms_are_tidy};
pub use readings::{escapes_are_resolved, one_reading_at_most};
pub use schema::{
    attributes_are_apart, children_are_apart, children_are_reachable, each_node_has_one_parent,
    names_are_plain,
};
pub use shape::{fair_copy_keeps_shape, lawful_has_shape};
