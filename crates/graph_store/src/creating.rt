// New elements, with the next ids.
ghost use Rattle.std.specs.Prelude.{◌≡◌, ◌+◌, ◌++◌, ◌≤◌, ◌^◌, length, map, Some, IfOk, OnOk};
ghost use Rattle.std.specs.List.{AllByRecursion};
ghost use Rattle.graph_model.specs.Change.{IsDistinctNode, IsDistinctRel, IsPlaceBelow, created_nodes, created_rels, place_id as id_of_place};
ghost use Rattle.graph_store.specs.Created.{created_node, created_rel};

use crate::ordering::{ordered_labels, ordered_props};
use graph_model::{List, Mem, NewNode, NewRel, Node, Place, Rel, TryClone};
use std::alloc::Global;
use store_tables::{Slot, Table};

/// A new node, as it lives.
fn create_node(alloc: Global, id: u32, new: &NewNode) -> Result<Slot<Node>, Mem>
    requires { IsDistinctNode new.now }
    ensures { IfOk result (λ slot. slot ≡ Some (created_node id new.now)) }
{
    let labels = ordered_labels(alloc, &new.labels)?;
    let props = ordered_props(alloc, &new.props)?;
    Slot::of(alloc, Node { id, labels, props })
}

/// New nodes behind the others.
fn create_nodes(slots: &mut Table<Slot<Node>>, alloc: Global, news: &[NewNode]) -> Result<(), Mem>
    requires distinct { AllByRecursion IsDistinctNode news.now }
    requires few { length slots.old + length news.now ≤ 2 ^ 32 }
    ensures { OnOk result (slots.new ≡ slots.old ++ map Some (created_nodes (length slots.old) news.now)) }
{
    for new in news {
        let slot = create_node(alloc, slots.len() as u32, new)?;
        slots.push(alloc, slot)?;
    }
    Ok(())
}

/// The id of an end, where the `count` new nodes have their ids from `first` on.
fn place_id(first: u32, count: u32, place: Place) -> u32
    requires below { IsPlaceBelow count place }
    requires fits { first + count ≤ 2 ^ 32 }
    ensures { result ≡ id_of_place first place }
{
    match place {
        Place::Old(id) => id,
        Place::New(index) => first + index,
    }
}

/// A new relationship, as it lives, where the `count` new nodes have their ids from `first` on.
fn create_rel(
    alloc: Global,
    first: u32,
    count: u32,
    id: u32,
    new: &NewRel,
) -> Result<Slot<Rel>, Mem>
    requires distinct { IsDistinctRel count new.now }
    requires fits { first + count ≤ 2 ^ 32 }
    ensures { IfOk result (λ slot. slot ≡ Some (created_rel first id new.now)) }
{
    let source = place_id(first, count, new.source);
    let target = place_id(first, count, new.target);
    let kind = new.kind.try_clone()?;
    let props = ordered_props(alloc, &new.props)?;
    Slot::of(
        alloc,
        Rel {
            id,
            source,
            target,
            kind,
            props,
        },
    )
}

/// New relationships behind the others, where the `count` new nodes have their ids from `first` on.
fn create_rels(
    slots: &mut Table<Slot<Rel>>,
    alloc: Global,
    first: u32,
    count: u32,
    news: &[NewRel],
) -> Result<(), Mem>
    requires distinct { AllByRecursion (IsDistinctRel count) news.now }
    requires fits { first + count ≤ 2 ^ 32 }
    requires few { length slots.old + length news.now ≤ 2 ^ 32 }
    ensures { OnOk result (slots.new ≡ slots.old ++ map Some (created_rels first (length slots.old) news.now)) }
{
    for new in news {
        let slot = create_rel(alloc, first, count, slots.len() as u32, new)?;
        slots.push(alloc, slot)?;
    }
    Ok(())
}

/// The slots with new nodes behind the others.
pub(crate) fn with_nodes(
    slots: &Table<Slot<Node>>,
    alloc: Global,
    news: &List<NewNode>,
) -> Result<Table<Slot<Node>>, Mem>
    requires distinct { AllByRecursion IsDistinctNode news.now }
    requires few { length slots.now + length news.now ≤ 2 ^ 32 }
    ensures { IfOk result (λ made. made ≡ slots.now ++ map Some (created_nodes (length slots.now) news.now)) }
{
    let mut draft = slots.try_clone()?;
    create_nodes(&mut draft, alloc, news.as_slice())?;
    Ok(draft)
}

/// The slots with new relationships behind the others, where the `count` new nodes have their ids from `first` on.
pub(crate) fn with_rels(
    slots: &Table<Slot<Rel>>,
    alloc: Global,
    first: u32,
    count: u32,
    news: &List<NewRel>,
) -> Result<Table<Slot<Rel>>, Mem>
    requires distinct { AllByRecursion (IsDistinctRel count) news.now }
    requires fits { first + count ≤ 2 ^ 32 }
    requires few { length slots.now + length news.now ≤ 2 ^ 32 }
    ensures { IfOk result (λ made. made ≡ slots.now ++ map Some (created_rels first (length slots.now) news.now)) }
{
    let mut draft = slots.try_clone()?;
    create_rels(&mut draft, alloc, first, count, news.as_slice())?;
    Ok(draft)
}
