// The graph that a store stands for, read back id by id.
ghost use Rattle.std.specs.Prelude.{◌≡◌, [], ◌++◌, IfOk, OnOk};
ghost use Rattle.std.specs.List.{cons_option};
ghost use Rattle.std.specs.Option.{option_copied};
ghost use Rattle.graph_model.specs.Graph.{IsValidGraph};

use graph_model::laws::elements_come_by_id;
use graph_model::{List, Mem, Node, PropertyGraph, Rel, TryClone};
use graph_store::Store;
use std::alloc::Global;

/// Puts a copy of what was found behind other copies.
fn push_found<T: TryClone + Drop>(copies: &mut List<T>, found: Option<&T>) -> Result<(), Mem>
    ensures { OnOk result (copies.new ≡ copies.old ++ cons_option (option_copied found.entry) []) }
{
    if let Some(element) = found {
        copies.push(element.try_clone()?)?;
    }
    Ok(())
}

/// Copies of the nodes of a store.
fn nodes_of(alloc: Global, store: &Store) -> Result<List<Node>, Mem>
    requires { IsValidGraph store.now }
    ensures { IfOk result (λ nodes. nodes ≡ store.now.nodes) }
{
    elements_come_by_id();
    let mut nodes = List::new(alloc);
    for id in 0..store.next_node() {
        push_found(&mut nodes, store.node(id))?;
    }
    Ok(nodes)
}

/// Copies of the relationships of a store.
fn rels_of(alloc: Global, store: &Store) -> Result<List<Rel>, Mem>
    requires { IsValidGraph store.now }
    ensures { IfOk result (λ rels. rels ≡ store.now.rels) }
{
    elements_come_by_id();
    let mut rels = List::new(alloc);
    for id in 0..store.next_rel() {
        push_found(&mut rels, store.rel(id))?;
    }
    Ok(rels)
}

/// A copy of the graph of a store.
pub(crate) fn graph_of(alloc: Global, store: &Store) -> Result<PropertyGraph, Mem>
    requires { IsValidGraph store.now }
    ensures { IfOk result (λ graph. graph ≡ store.now) }
{
    Ok(PropertyGraph {
        nodes: nodes_of(alloc, store)?,
        rels: rels_of(alloc, store)?,
        next_node: store.next_node(),
        next_rel: store.next_rel(),
    })
}
