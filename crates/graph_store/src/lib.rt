//! The store: a property graph that is asked, changed and shared. `specs/Stored` says which graph its slots stand for, and
//! every `Store` and every `Snapshot` keeps that this graph is valid and within the limits. A change is prepared, which
//! takes all its memory and gives the graph to come and what the change answers, or why it is refused, and then applied,
//! which takes none. What a change means and answers, and when it is refused, is defined in `graph_model`. What
//! the graph stands in, rows that copies share, is `store_tables`.
#![tactic(auto)]

mod changes;
mod checks;
mod creating;
mod deleting;
mod known;
mod ordering;
mod setting;
mod store;
mod values;

pub use store::{Prepared, Snapshot, Store};
