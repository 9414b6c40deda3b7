//! Named graphs from the store: a specification projects a snapshot to columns.
//!
//! `project` gives exactly `projected` of projection_spec, or refuses exactly as it does: names that nobody knows first, then
//! sums that leave i64, then too many arcs. Names are looked up in the store's counts, and nothing is read before all of them
//! are known. The nodes are projected_nodes' work, and the arcs of each type projected_arcs'. It takes memory for what it
//! gives, and for what these need on the way.
#![tactic(auto)]

mod known;
mod making;
mod native;

pub use native::project;
