//! The named graphs of a user: a map from names to projections, each under a version that is never used twice.
//!
//! `specs/Catalog` says what is kept, why a change is refused and what it leaves. Every catalog keeps that its names
//! ascend, that its versions are distinct and none is above the last one given, and that it has at most 64 graphs.
//! Keeping a graph takes memory for its entry, and adding a column takes it for the column; reading and dropping take none.
//! Which event does what is left to the desk.
#![tactic(auto)]

mod catalog;
mod entry;
pub mod laws;

pub use catalog::Catalog;
pub use entry::Entry;
