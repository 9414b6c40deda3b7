//! The arcs of a projected type in rows: the relationships that an entry asks for, turned, put in order, and grouped
//! where the entry groups.
//!
//! `project_type` gives exactly `type_among` of specs/Types.antt, which says in one line what arcs an entry keeps among the
//! nodes of some ids. Arcs stand in one flat list until they are in order, and values in columns; a list for each arc is made
//! for groups alone. It takes memory for the arcs and what they are made from. Which names are known, and how many arcs
//! all types may have, is left to the projecting crate.
#![tactic(auto)]

mod flat;
mod grouped;
mod kind;
mod matching;
mod places;
mod rows;

pub use kind::project_type;
pub use places::Places;
