//! What a projection takes from the store: its entries, and how they are read from JSON.
//!
//! `specs/Projected` says what the three arguments of a projection mean and why they are refused, over the forms in
//! `specs/Given`, `specs/Words` and `specs/Written`; `specs/RawArcs` and `specs/KeptArcs` say which arcs an entry gives.
//! Entries, and the keys of each, ascend by name without repeats, and each rule fits its entry: the types keep this.
//! Memory is taken for the entries alone. Which labels, types and keys the store knows is left to the projecting crate.
#![tactic(auto)]

mod added;
mod arcs;
mod entries;
mod fields;
pub mod laws;
mod nodes;
mod part;
mod reading;
mod rels;
mod settings;
mod settled;
mod words;
mod written;

pub use arcs::{Grouped, RawArc, stored_cell, stored_value};
pub use entries::{NodeEntry, NodeProp, ProjectSpec, RelEntry, RelProp, Rule};
pub use graph_model::Orientation;
