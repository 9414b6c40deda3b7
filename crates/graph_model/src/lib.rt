//! The types of a property graph, and the definitions that the contracts of all crates cite.
#![tactic(auto)]

mod change;
mod graph;
mod kept;
pub mod laws;
mod list;
mod memory;
mod name;
mod refusal;
mod shared;
mod text;

pub use change::{Change, ChangeReply, NewNode, NewRel, Place};
pub use graph::{Choice, Column, Node, Orientation, Prop, PropertyGraph, Rel};
pub use kept::{ImportNote, Kept};
pub use list::List;
pub use memory::{Mem, TryClone};
pub use name::{Name, NameError, Tag};
pub use refusal::{Counter, EntityKind, LongPart, Quantity, Refusal, Side};
pub use shared::Shared;
