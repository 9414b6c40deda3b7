//! Arcs between the same two nodes made one: an arc for each group, with a value for each key by the key's rule.
//!
//! `group` gives exactly `kept_arcs` of projection_spec. It goes over the arcs once, and takes memory for what it
//! gives alone. The arcs come in order, so that a group is a run of them and its first arc has the least id.
#![tactic(auto)]

mod groups;
mod refusal;
mod values;

pub use groups::group;
pub use projection_spec::{Grouped, RawArc};
pub use refusal::GroupRefusal;
