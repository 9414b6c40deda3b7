// The calls of procedures, with the arguments that were read.
use graph_model::{Change, Choice, Name, Tag};

/// A call of a procedure.
#[derive(Drop)]
pub enum Call {
    /// Makes nodes and relationships, under an import id where one is given.
    Create { import: Option<Tag>, change: Change },
    /// Sets values, or deletes elements.
    Alter { change: Change },
    /// The values that the store's nodes have under a key, of nodes with a chosen label.
    StoreRows { key: Name, labels: Choice },
}
