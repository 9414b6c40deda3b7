// Changes of a property graph.
use crate::graph::Prop;
use crate::list::List;
use crate::name::Name;

/// An end of a new relationship.
#[derive(Clone, Copy, Debug, PartialEq, Eq)]
pub enum Place {
    /// The node of this id, which lives before the change.
    Old(u32),
    /// The new node at this place among the change's new nodes, counted from 0.
    New(u32),
}

/// A node to be made.
#[derive(Debug, Drop)]
pub struct NewNode {
    pub labels: List<Name>,
    pub props: List<Prop>,
}

/// A relationship to be made.
#[derive(Debug, Drop)]
pub struct NewRel {
    pub source: Place,
    pub target: Place,
    pub kind: Name,
    pub props: List<Prop>,
}

/// A change of a property graph.
#[derive(Debug, Drop)]
pub enum Change {
    /// Makes nodes and then relationships, which take the next ids in this order.
    Create {
        nodes: List<NewNode>,
        rels: List<NewRel>,
    },
    /// Sets a value of nodes, by pairs of an id and a value in order, so that the last of equal ids stays.
    SetNodes {
        key: Name,
        values: List<(u32, i64)>,
    },
    /// Sets a value of relationships, likewise.
    SetRels {
        key: Name,
        values: List<(u32, i64)>,
    },
    /// Deletes nodes and every relationship at them.
    DeleteNodes {
        ids: List<u32>,
    },
    /// Deletes relationships.
    DeleteRels {
        ids: List<u32>,
    },
}

/// What a change answers.
#[derive(Clone, Copy, Debug, PartialEq, Eq)]
pub enum ChangeReply {
    /// The counters before the change, and how many nodes and relationships it made.
    Created {
        first_node: u32,
        nodes: u32,
        first_rel: u32,
        rels: u32,
    },
    /// How many pairs were set.
    Set {
        pairs: u64,
    },
    /// How many nodes and relationships ceased to live.
    Deleted {
        nodes: u32,
        rels: u32,
    },
}
