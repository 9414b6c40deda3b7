// The store: a property graph that is asked, changed and shared.
ghost use Rattle.std.specs.Prelude.{◌≡◌, IfOk};
ghost use Rattle.std.specs.List.{find};
ghost use Rattle.std.specs.Option.{option_copied};
ghost use Rattle.graph_model.specs.Graph.{IsValidGraph, IsWithinLimits, is_node, is_rel};
ghost use Rattle.graph_store.specs.Told.{node_ids, rel_ids_from};

use graph_model::{ChangeReply, List, Mem, Node, PropertyGraph, Rel, TryClone};
use std::alloc::Global;
use std::marker::Model;
use std::snapshot::Snapshot as Before;
use store_tables::{Census, Links, Slot, Table, live_at, live_ids, slots_of, value_count};

/// A property graph that is valid and within the limits. Contracts see the graph.
#[derive(Drop)]
pub struct Store {
    pub(crate) nodes: Table<Slot<Node>>,
    pub(crate) rels: Table<Slot<Rel>>,
    pub(crate) links: Links,
    pub(crate) values: u64,
    pub(crate) node_names: Census,
    pub(crate) rel_names: Census,
}

impl Model for Store {
    ghost use Rattle.graph_model.specs.declared.graph.PropertyGraph.{PropertyGraph};

    ghost Value = { PropertyGraph };

    ghost use Rattle.graph_store.specs.Stored.{graph_of};
    ghost use Rattle.graph_store.specs.Whole.{IsStored};

    ghost view = { λ store. graph_of store.nodes store.rels };

    ghost invariant = { λ store. IsStored store.nodes store.rels store.values store.links store.node_names store.rel_names };
}

impl Store {
    /// A store of a graph.
    ///
    /// # Errors
    /// `Mem` where there is no memory for the slots.
    pub fn of(alloc: Global, graph: PropertyGraph) -> Result<Store, Mem>
        requires valid { IsValidGraph graph }
        requires limits { IsWithinLimits graph }
        ensures { IfOk result (λ store. store ≡ graph) }
    {
        let values = value_count(&graph.nodes) + value_count(&graph.rels);
        let nodes = slots_of(alloc, graph.nodes, graph.next_node)?;
        let rels = slots_of(alloc, graph.rels, graph.next_rel)?;
        let links = Links::new(alloc)?.extended(alloc, nodes.len(), &rels)?;
        let node_names = Census::new(alloc)?.with_rows(alloc, &nodes, 0)?;
        let rel_names = Census::new(alloc)?.with_rows(alloc, &rels, 0)?;
        Ok(Store {
            nodes,
            rels,
            links,
            values,
            node_names,
            rel_names,
        })
    }

    /// The node of this id that lives.
    pub fn node(&self, id: u32) -> Option<&Node>
        ensures { option_copied result ≡ find (is_node id) self.now.nodes }
    {
        live_at(&self.nodes, id as usize)
    }

    /// The relationship of this id that lives.
    pub fn rel(&self, id: u32) -> Option<&Rel>
        ensures { option_copied result ≡ find (is_rel id) self.now.rels }
    {
        live_at(&self.rels, id as usize)
    }

    /// The ids of the relationships that begin at a node, ascending; none where no such node lives.
    ///
    /// # Errors
    /// `Mem` where there is no memory for the list.
    pub fn rels_from(&self, alloc: Global, id: u32) -> Result<List<u32>, Mem>
        ensures { IfOk result (λ ids. ids ≡ rel_ids_from self.now id) }
    {
        self.links.ids_from(alloc, &self.rels, id)
    }

    /// The ids of the nodes, ascending.
    ///
    /// # Errors
    /// `Mem` where there is no memory for the list.
    pub fn nodes(&self, alloc: Global) -> Result<List<u32>, Mem>
        ensures { IfOk result (λ ids. ids ≡ node_ids self.now) }
    {
        live_ids(&self.nodes, alloc)
    }

    /// The id that the next new node takes.
    pub fn next_node(&self) -> u32
        ensures next { result ≡ self.now.next_node }
        ensures valid { IsValidGraph self.now }
        ensures limits { IsWithinLimits self.now }
    {
        self.nodes.len() as u32
    }

    /// The id that the next new relationship takes.
    pub fn next_rel(&self) -> u32
        ensures { result ≡ self.now.next_rel }
    {
        self.rels.len() as u32
    }

    /// The graph as it is now, which later changes don't reach. It shares what it has with the store.
    ///
    /// # Errors
    /// `Mem` where the graph can't be shared once more.
    pub fn snapshot(&self) -> Result<Snapshot, Mem>
        ensures { IfOk result (λ snapshot. snapshot ≡ self.now) }
    {
        Ok(Snapshot {
            store: self.try_clone()?,
        })
    }

    /// Makes a change that was prepared on this graph. It takes no memory and is never refused.
    pub fn apply(&mut self, made: Prepared)
        requires { made.before ≡ self.old }
        ensures { self.new ≡ made.after }
    {
        let Prepared {
            before: _,
            after,
            answer: _,
        } = made;
        *self = after;
    }
}

impl TryClone for Store {
    fn try_clone(&self) -> Result<Store, Mem> {
        Ok(Store {
            nodes: self.nodes.try_clone()?,
            rels: self.rels.try_clone()?,
            links: self.links.try_clone()?,
            values: self.values,
            node_names: self.node_names.try_clone()?,
            rel_names: self.rel_names.try_clone()?,
        })
    }
}

/// A change that was prepared: the graph that it was prepared on, the graph to come, and what the change answers.
#[derive(Drop)]
pub struct Prepared {
    pub(crate) before: Before<Store>,
    pub(crate) after: Store,
    pub(crate) answer: ChangeReply,
}

impl Model for Prepared {
    ghost use Rattle.graph_store.specs.Prepared.{PreparedChange};

    ghost Value = { PreparedChange };

    ghost view = { λ made. record { before = made.before.value; after = made.after; answer = made.answer } };
}

impl Prepared {
    /// What the change answers once it is made.
    pub fn answer(&self) -> ChangeReply
        ensures { result ≡ self.now.answer }
    {
        self.answer
    }
}

/// A graph as a store had it at one moment. Contracts see the graph, which is valid and within the limits.
#[derive(Drop)]
pub struct Snapshot {
    pub(crate) store: Store,
}

impl Model for Snapshot {
    ghost use Rattle.graph_model.specs.declared.graph.PropertyGraph.{PropertyGraph};

    ghost Value = { PropertyGraph };

    ghost view = { λ snapshot. snapshot.store };
}

impl Snapshot {
    /// The node of this id.
    pub fn node(&self, id: u32) -> Option<&Node>
        ensures { option_copied result ≡ find (is_node id) self.now.nodes }
    {
        self.store.node(id)
    }

    /// The relationship of this id.
    pub fn rel(&self, id: u32) -> Option<&Rel>
        ensures { option_copied result ≡ find (is_rel id) self.now.rels }
    {
        self.store.rel(id)
    }

    /// The id that the next new node takes; all nodes have ids below it.
    pub fn next_node(&self) -> u32
        ensures next { result ≡ self.now.next_node }
        ensures valid { IsValidGraph self.now }
        ensures limits { IsWithinLimits self.now }
    {
        self.store.next_node()
    }

    /// The id that the next new relationship takes; all relationships have ids below it.
    pub fn next_rel(&self) -> u32
        ensures { result ≡ self.now.next_rel }
    {
        self.store.next_rel()
    }
}
