// The columns that a projection is made of.
use crate::csr::Csr;
use graph_model::{List, Name, Orientation, Shared};

/// A projected type: its name, how its relationships became arcs, and its arcs. Copies share the arcs.
#[derive(Drop)]
pub struct TypeColumns {
    pub kind: Name,
    pub orientation: Orientation,
    pub arcs: Shared<Csr>,
}

/// The columns of a projection. A node is told by its place in `ids`.
#[derive(Drop)]
pub struct Parts {
    /// The node ids, ascending.
    pub ids: List<u32>,
    /// The projected labels, ascending, each with a flag for every node.
    pub labels: List<(Name, List<bool>)>,
    /// The node keys, ascending, each with a value for every node.
    pub columns: List<(Name, List<i64>)>,
    /// The projected types, ascending by name.
    pub types: List<TypeColumns>,
}
