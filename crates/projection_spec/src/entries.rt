// The entries of a projection.
use graph_model::{List, Mem, Name, Orientation, TryClone};
use std::marker::Model;

/// How the arcs of a group give the value of a key.
#[derive(Clone, Copy, Debug, PartialEq, Eq)]
pub enum Rule {
    /// There are no groups: each arc is kept with its own value.
    Keep,
    /// The value of the arc with the least relationship id.
    Single,
    /// How many relationships of the group store the key, or how many there are.
    Count,
    /// The least value.
    Min,
    /// The greatest value.
    Max,
    /// The sum of the values.
    Sum,
}

/// A key of projected nodes.
#[derive(Debug, Drop)]
pub struct NodeProp {
    pub key: Name,
    /// The store's key.
    pub store: Name,
    /// The value of a node that stores none.
    pub default: Option<i64>,
}

impl TryClone for NodeProp {
    fn try_clone(&self) -> Result<NodeProp, Mem> {
        Ok(NodeProp {
            key: self.key.try_clone()?,
            store: self.store.try_clone()?,
            default: self.default,
        })
    }
}

/// A projected label and the nodes that get it.
#[derive(Debug, Drop)]
pub struct NodeEntry {
    pub label: Name,
    /// The store's label, or none where each node gets the projected label.
    pub store: Option<Name>,
    pub props: List<NodeProp>,
}

/// A key of projected arcs.
#[derive(Debug, Drop)]
pub struct RelProp {
    pub key: Name,
    /// The store's key, or none where relationships are counted whatever they store.
    pub store: Option<Name>,
    /// The value of a relationship that stores none.
    pub default: Option<i64>,
    pub rule: Rule,
}

/// A projected type and the relationships that become its arcs.
#[derive(Debug, Drop)]
pub struct RelEntry {
    pub kind: Name,
    /// The store's type, or none where each relationship becomes arcs of the projected type.
    pub store: Option<Name>,
    pub orientation: Orientation,
    /// Whether the arcs between the same two nodes become one.
    pub grouped: bool,
    pub props: List<RelProp>,
}

impl Model for RelEntry {
    ghost use Rattle.projection_spec.specs.Fields.{RelFields, HasFittingRules};

    ghost Value = { RelFields };

    ghost view = { λ entry. record { kind = entry.kind; store = entry.store; orientation = entry.orientation; grouped = entry.grouped; props = entry.props } };

    ghost invariant = { λ entry. HasFittingRules entry.grouped entry.props };
}

/// A projection: its node entries by projected label, and its relationship entries by projected type.
#[derive(Debug, Drop)]
pub struct ProjectSpec {
    pub nodes: List<NodeEntry>,
    pub rels: List<RelEntry>,
}

impl Model for ProjectSpec {
    ghost use Rattle.projection_spec.specs.Fields.{SpecFields, HasAscendingNames};

    ghost Value = { SpecFields };

    ghost view = { λ spec. record { nodes = spec.nodes; rels = spec.rels } };

    ghost invariant = { λ spec. HasAscendingNames spec.nodes spec.rels };
}
