//! What a store keeps its graph in: rows that copies share, the elements in them, links, and numbers under names. It says
//! nothing of changes.
//!
//! Each id has a row, a slot, in which an element lives or nothing (`specs/Slots`). Rows stand in leaves of 1,024, and 1,024
//! leaves in a branch (`specs/Joined`): a change of a row copies the list of branches, the branch's list of leaves and the
//! leaf, once, and shares the rest with all copies. The relationships that begin at a node are found by links, from the last
//! to the first (`specs/Links`). How often elements have a label, a type or a key is kept in such rows too (`specs/Counted`),
//! each name with its number in a row, which is found from row to row by the bits of the name (`specs/NameRows`).
#![tactic(auto)]

mod branch;
mod census;
mod element;
mod leaf;
mod link;
mod name_row;
mod slot;
mod slots;
mod table;
mod tally;

pub use census::Census;
pub use element::Element;
pub use link::{Latest, Link, Links};
pub use name_row::NameRow;
pub use slot::Slot;
pub use slots::{live_at, live_ids, shared_at, slots_of, value_count};
pub use table::Table;
pub use tally::{Named, Tally};
