// The property graph, and the plain types that stand beside it.
ghost use Rattle.std.specs.Prelude.{◌≡◌, ◌<◌, [], ◌∷◌, ◌++◌, length, IfOk};
ghost use Rattle.std.specs.List.{AllByRecursion};
ghost use Rattle.std.specs.List.Sorted.{IsStrictlyIncreasing};

use crate::list::List;
use crate::memory::{Mem, TryClone};
use crate::name::Name;
use std::alloc::Global;

/// A key and its value.
#[derive(Debug, Drop)]
pub struct Prop {
    pub key: Name,
    pub value: i64,
}

/// A node with its labels and its values, each ascending.
#[derive(Debug, Drop)]
pub struct Node {
    pub id: u32,
    pub labels: List<Name>,
    pub props: List<Prop>,
}

/// A relationship between two nodes, with its type and its values, which ascend by key.
#[derive(Debug, Drop)]
pub struct Rel {
    pub id: u32,
    pub source: u32,
    pub target: u32,
    pub kind: Name,
    pub props: List<Prop>,
}

/// Nodes and relationships, each ascending by id, and the ids that come next.
#[derive(Debug, Drop)]
pub struct PropertyGraph {
    pub nodes: List<Node>,
    pub rels: List<Rel>,
    pub next_node: u32,
    pub next_rel: u32,
}

/// How the relationships of a type become arcs.
#[derive(Clone, Copy, Debug, PartialEq, Eq)]
pub enum Orientation {
    /// An arc from source to target.
    Natural,
    /// An arc from target to source.
    Reverse,
    /// An arc each way.
    Undirected,
}

/// Which labels or which types are meant.
#[derive(Debug, Drop)]
pub enum Choice {
    /// Each of them; of nodes also those without a label.
    All,
    /// Those of these names, which may repeat.
    Of(List<Name>),
}

/// A value for some ids, which ascend.
#[derive(Debug, Drop)]
pub struct Column {
    pub ids: List<u32>,
    pub values: List<i64>,
    pub ghost ascending: { IsStrictlyIncreasing ids },
    pub ghost paired: { length values ≡ length ids },
}

impl Column {
    /// A column without rows. It takes no memory.
    pub fn new(alloc: Global) -> Column
        ensures ids { result.ids ≡ [] }
        ensures values { result.values ≡ [] }
    {
        Column {
            ids: List::new(alloc),
            values: List::new(alloc),
        }
    }

    /// The column with one more row, whose id comes behind all others.
    ///
    /// # Errors
    /// `Mem` where there is no room. Then the column is gone.
    pub fn with_row(self, id: u32, value: i64) -> Result<Column, Mem>
        requires { AllByRecursion (λ before. before < id) self.ids }
        ensures ids { IfOk result (λ column. column.ids ≡ self.ids ++ id ∷ []) }
        ensures values { IfOk result (λ column. column.values ≡ self.values ++ value ∷ []) }
    {
        let Column { ids, values } = self;
        let mut ids = ids;
        let mut values = values;
        ids.push(id)?;
        values.push(value)?;
        Ok(Column { ids, values })
    }
}

impl TryClone for Prop {
    fn try_clone(&self) -> Result<Prop, Mem> {
        Ok(Prop {
            key: self.key.try_clone()?,
            value: self.value,
        })
    }
}

impl TryClone for Node {
    fn try_clone(&self) -> Result<Node, Mem> {
        Ok(Node {
            id: self.id,
            labels: self.labels.try_clone()?,
            props: self.props.try_clone()?,
        })
    }
}

impl TryClone for Rel {
    fn try_clone(&self) -> Result<Rel, Mem> {
        Ok(Rel {
            id: self.id,
            source: self.source,
            target: self.target,
            kind: self.kind.try_clone()?,
            props: self.props.try_clone()?,
        })
    }
}

impl TryClone for PropertyGraph {
    fn try_clone(&self) -> Result<PropertyGraph, Mem> {
        Ok(PropertyGraph {
            nodes: self.nodes.try_clone()?,
            rels: self.rels.try_clone()?,
            next_node: self.next_node,
            next_rel: self.next_rel,
        })
    }
}
