// The graph to come, for each kind of change.
ghost use Rattle.std.specs.Prelude.{◌≡◌, ◌+◌, sum_by, None, Some, IfOk, IfErr};
ghost use Rattle.graph_model.specs.Graph.{most_values, value_count};
ghost use Rattle.graph_model.specs.Refusals.{UnlessMem};
ghost use Rattle.graph_model.specs.Change.{after_change, change_answer, over_limit, refused_change, IsWellFormedChange};
ghost use Rattle.graph_store.specs.Missing.{IsMadeBy, new_node_values, new_rel_values, over_limits_with};

use crate::checks::{missing_end, new_value_count};
use crate::creating::{with_nodes, with_rels};
use crate::deleting::{gone_values, without, without_loose};
use crate::setting::with_values;
use crate::store::{Prepared, Store};
use graph_model::{
    Change, ChangeReply, EntityKind, List, Name, NewNode, NewRel, Quantity, Refusal, TryClone,
};
use std::alloc::Global;
use std::snapshot::Snapshot as Before;

const MOST_NODES: u64 = 4_194_304;

const MOST_RELS: u64 = 16_777_216;

const MOST_VALUES: u64 = 33_554_432;

/// A limit would be passed.
fn full(which: Quantity, limit: u64) -> Refusal
    ensures { result ≡ Refusal.Full which limit 0 }
{
    Refusal::Full {
        which,
        limit,
        batches: 0,
    }
}

impl Store {
    /// The number of values when there are so many more.
    ///
    /// # Errors
    /// `Full` where that is over the limit.
    fn values_with(&self, added: u64) -> Result<u64, Refusal>
        ensures ok { IfOk result (λ count. (count ≡ value_count self.now + added) × (over_limit Quantity.Values most_values (value_count self.now + added) ≡ None)) }
        ensures err { IfErr result (λ why. over_limit Quantity.Values most_values (value_count self.now + added) ≡ Some why) }
    {
        if added > MOST_VALUES - self.values {
            return Err(full(Quantity::Values, MOST_VALUES));
        }
        Ok(self.values + added)
    }

    /// The graph with a value of nodes set.
    pub(crate) fn with_node_values(
        &self,
        alloc: Global,
        key: &Name,
        values: &List<(u32, i64)>,
    ) -> Result<(Store, ChangeReply), Refusal>
        ensures ok { IfOk result (λ made. IsMadeBy self.now (Change.SetNodes key.now values.now) made.0) }
        ensures answer { IfOk result (λ made. made.1 ≡ change_answer self.now (Change.SetNodes key.now values.now)) }
        ensures refused { IfErr result (λ why. UnlessMem why (refused_change self.now (Change.SetNodes key.now values.now) ≡ Some why)) }
    {
        let answer = ChangeReply::Set {
            pairs: values.len() as u64,
        };
        let (nodes, added) = with_values(&self.nodes, alloc, EntityKind::Node, key, values)?;
        let values = self.values_with(added)?;
        let rels = self.rels.try_clone()?;
        let links = self.links.try_clone()?;
        let node_names = self.node_names.with_key(alloc, key, added)?;
        let rel_names = self.rel_names.try_clone()?;
        let store = Store {
            nodes,
            rels,
            links,
            values,
            node_names,
            rel_names,
        };
        Ok((store, answer))
    }

    /// The graph with a value of relationships set.
    pub(crate) fn with_rel_values(
        &self,
        alloc: Global,
        key: &Name,
        values: &List<(u32, i64)>,
    ) -> Result<(Store, ChangeReply), Refusal>
        ensures ok { IfOk result (λ made. IsMadeBy self.now (Change.SetRels key.now values.now) made.0) }
        ensures answer { IfOk result (λ made. made.1 ≡ change_answer self.now (Change.SetRels key.now values.now)) }
        ensures refused { IfErr result (λ why. UnlessMem why (refused_change self.now (Change.SetRels key.now values.now) ≡ Some why)) }
    {
        let answer = ChangeReply::Set {
            pairs: values.len() as u64,
        };
        let (rels, added) = with_values(&self.rels, alloc, EntityKind::Rel, key, values)?;
        let values = self.values_with(added)?;
        let nodes = self.nodes.try_clone()?;
        let links = self.links.try_clone()?;
        let node_names = self.node_names.try_clone()?;
        let rel_names = self.rel_names.with_key(alloc, key, added)?;
        let store = Store {
            nodes,
            rels,
            links,
            values,
            node_names,
            rel_names,
        };
        Ok((store, answer))
    }

    /// The graph without nodes, and without the relationships at them.
    pub(crate) fn without_nodes(
        &self,
        alloc: Global,
        ids: &List<u32>,
    ) -> Result<(Store, ChangeReply), Refusal>
        ensures ok { IfOk result (λ made. IsMadeBy self.now (Change.DeleteNodes ids.now) made.0) }
        ensures answer { IfOk result (λ made. made.1 ≡ change_answer self.now (Change.DeleteNodes ids.now)) }
        ensures refused { IfErr result (λ why. UnlessMem why (refused_change self.now (Change.DeleteNodes ids.now) ≡ Some why)) }
    {
        let (nodes, gone_nodes) = without(&self.nodes, alloc, EntityKind::Node, ids)?;
        let (rels, gone_rels) = without_loose(&self.rels, alloc, &nodes)?;
        let links = self.links.try_clone()?;
        let node_names = self.node_names.without(alloc, &gone_nodes)?;
        let rel_names = self.rel_names.without(alloc, &gone_rels)?;
        let values = self.values - gone_values(&gone_nodes) - gone_values(&gone_rels);
        let store = Store {
            nodes,
            rels,
            links,
            values,
            node_names,
            rel_names,
        };
        let answer = ChangeReply::Deleted {
            nodes: gone_nodes.len() as u32,
            rels: gone_rels.len() as u32,
        };
        Ok((store, answer))
    }

    /// The graph without relationships.
    pub(crate) fn without_rels(
        &self,
        alloc: Global,
        ids: &List<u32>,
    ) -> Result<(Store, ChangeReply), Refusal>
        ensures ok { IfOk result (λ made. IsMadeBy self.now (Change.DeleteRels ids.now) made.0) }
        ensures answer { IfOk result (λ made. made.1 ≡ change_answer self.now (Change.DeleteRels ids.now)) }
        ensures refused { IfErr result (λ why. UnlessMem why (refused_change self.now (Change.DeleteRels ids.now) ≡ Some why)) }
    {
        let (rels, gone) = without(&self.rels, alloc, EntityKind::Rel, ids)?;
        let nodes = self.nodes.try_clone()?;
        let links = self.links.try_clone()?;
        let node_names = self.node_names.try_clone()?;
        let rel_names = self.rel_names.without(alloc, &gone)?;
        let values = self.values - gone_values(&gone);
        let store = Store {
            nodes,
            rels,
            links,
            values,
            node_names,
            rel_names,
        };
        let answer = ChangeReply::Deleted {
            nodes: 0,
            rels: gone.len() as u32,
        };
        Ok((store, answer))
    }

    /// The number of values when new elements are there.
    ///
    /// # Errors
    /// `Full` for the first of nodes, relationships and values that would be over its limit.
    fn values_with_created(
        &self,
        nodes: &List<NewNode>,
        rels: &List<NewRel>,
    ) -> Result<u64, Refusal>
        ensures ok { IfOk result (λ count. (count ≡ value_count self.now + (sum_by new_node_values nodes.now + sum_by new_rel_values rels.now))
            × (over_limits_with self.now nodes.now rels.now ≡ None)) }
        ensures err { IfErr result (λ why. over_limits_with self.now nodes.now rels.now ≡ Some why) }
    {
        if nodes.len() as u64 > MOST_NODES - self.nodes.len() as u64 {
            return Err(full(Quantity::Nodes, MOST_NODES));
        }
        if rels.len() as u64 > MOST_RELS - self.rels.len() as u64 {
            return Err(full(Quantity::Rels, MOST_RELS));
        }
        self.values_with(new_value_count(nodes.as_slice(), rels.as_slice()))
    }

    /// The graph with new elements.
    pub(crate) fn with_created(
        &self,
        alloc: Global,
        nodes: &List<NewNode>,
        rels: &List<NewRel>,
    ) -> Result<(Store, ChangeReply), Refusal>
        requires { IsWellFormedChange (Change.Create nodes.now rels.now) }
        ensures ok { IfOk result (λ made. IsMadeBy self.now (Change.Create nodes.now rels.now) made.0) }
        ensures answer { IfOk result (λ made. made.1 ≡ change_answer self.now (Change.Create nodes.now rels.now)) }
        ensures refused { IfErr result (λ why. UnlessMem why (refused_change self.now (Change.Create nodes.now rels.now) ≡ Some why)) }
    {
        if let Some(id) = missing_end(&self.nodes, rels.as_slice()) {
            return Err(Refusal::NoSuchEntity {
                kind: EntityKind::Node,
                id,
            });
        }
        let values = self.values_with_created(nodes, rels)?;
        let first = self.nodes.len() as u32;
        let first_rel = self.rels.len() as u32;
        let count = nodes.len() as u32;
        let answer = ChangeReply::Created {
            first_node: first,
            nodes: count,
            first_rel,
            rels: rels.len() as u32,
        };
        let nodes = with_nodes(&self.nodes, alloc, nodes)?;
        let rels = with_rels(&self.rels, alloc, first, count, rels)?;
        let node_ids = nodes.len();
        let links = self.links.extended(alloc, node_ids, &rels)?;
        let node_names = self.node_names.with_rows(alloc, &nodes, first as usize)?;
        let rel_names = self.rel_names.with_rows(alloc, &rels, first_rel as usize)?;
        let store = Store {
            nodes,
            rels,
            links,
            values,
            node_names,
            rel_names,
        };
        Ok((store, answer))
    }

    /// The graph after a change, and what the change answers.
    fn after(&self, alloc: Global, change: &Change) -> Result<(Store, ChangeReply), Refusal>
        requires { IsWellFormedChange change.now }
        ensures ok { IfOk result (λ made. IsMadeBy self.now change.now made.0) }
        ensures answer { IfOk result (λ made. made.1 ≡ change_answer self.now change.now) }
        ensures refused { IfErr result (λ why. UnlessMem why (refused_change self.now change.now ≡ Some why)) }
    {
        match change {
            Change::Create { nodes, rels } => self.with_created(alloc, nodes, rels),
            Change::SetNodes { key, values } => self.with_node_values(alloc, key, values),
            Change::SetRels { key, values } => self.with_rel_values(alloc, key, values),
            Change::DeleteNodes { ids } => self.without_nodes(alloc, ids),
            Change::DeleteRels { ids } => self.without_rels(alloc, ids),
        }
    }

    /// Makes ready a change whose new elements have distinct labels and keys, and whose new ends lie among its new
    /// nodes. It takes all the memory that the change needs. The store stays as it is.
    ///
    /// # Errors
    /// `NoSuchEntity` with the first id that the change names and that doesn't live; else `Full` for the first of
    /// nodes, relationships and values that would be over its limit; or `Mem`.
    pub fn prepare(&self, alloc: Global, change: &Change) -> Result<Prepared, Refusal>
        requires { IsWellFormedChange change.now }
        ensures ok { IfOk result (λ made. (made ≡ record { before = self.now; after = after_change self.now change.now; answer = change_answer self.now change.now })
            × (refused_change self.now change.now ≡ None)) }
        ensures refused { IfErr result (λ why. UnlessMem why (refused_change self.now change.now ≡ Some why)) }
    {
        let (after, answer) = self.after(alloc, change)?;
        Ok(Prepared {
            before: Before::of(self),
            after,
            answer,
        })
    }
}
