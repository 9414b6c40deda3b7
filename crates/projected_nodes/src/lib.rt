//! The nodes of a projection in columns: their ids, a flag for each projected label and a value for each node key.
//!
//! `project_nodes` gives exactly `node_columns` of specs/Columns.antt for the nodes that the entries take. Each column is one
//! pass over those nodes, which are found in one pass over the store. It takes memory for the columns and a list of
//! references. What the entries ask for is known by then: the refusals of a projection are another crate's.
#![tactic(auto)]

mod columns;
mod kept;
mod keys;
mod taking;

pub use columns::{NodeColumns, project_nodes};
