// Elements that go.
ghost use Rattle.std.specs.Prelude.{◌≡◌, ℕ, ◌+◌, ◌<◌, ◌^◌, length, map, slice_set, sum_by, Some, None, IfOk, IfErr, OnOk};
ghost use Rattle.std.specs.List.{find};
ghost use Rattle.std.specs.Option.{option_map};
ghost use Rattle.graph_model.specs.declared.graph.Rel.{Rel};
ghost use Rattle.graph_model.specs.Refusals.{UnlessMem};
ghost use Rattle.graph_store.specs.Missing.{is_dead};
ghost use Rattle.store_tables.specs.Slots.{IsNumbered, slot_at, slot_count, kept};
ghost use Rattle.graph_store.specs.Edits.{ends_live, is_unlisted, WeighsSame};

use crate::checks::missing_id;
use graph_model::{EntityKind, List, Mem, Node, Refusal, Rel, Shared, TryClone};
use std::alloc::Global;
use store_tables::{Element, Slot, Table, live_at, shared_at};

/// Nothing lives under an id any more. What lived there joins those that are gone.
fn remove<E: Element>(
    slots: &mut Table<Slot<E>>,
    gone: &mut List<Shared<E>>,
    alloc: Global,
    id: usize,
) -> Result<(), Mem>
    ensures removed { OnOk result (slots.new ≡ slice_set slots.old id None) }
    ensures counted { OnOk result ((weight : E → ℕ) → sum_by (slot_count weight) slots.new + sum_by weight gone.new
        ≡ sum_by (slot_count weight) slots.old + sum_by weight gone.old) }
{
    let Some(element) = shared_at(slots, id)? else {
        return Ok(());
    };
    gone.push(element)?;
    slots.set(alloc, id, Slot::dead())
}

/// Nothing lives under the listed ids any more. What lived there joins those that are gone.
fn remove_listed<E: Element>(
    slots: &mut Table<Slot<E>>,
    gone: &mut List<Shared<E>>,
    alloc: Global,
    ids: &[u32],
) -> Result<(), Mem>
    requires { IsNumbered E.id_of 0 slots.old }
    ensures removed { OnOk result (slots.new ≡ map (kept (is_unlisted E.id_of ids.now)) slots.old) }
    ensures counted { OnOk result ((weight : E → ℕ) → sum_by (slot_count weight) slots.new + sum_by weight gone.new
        ≡ sum_by (slot_count weight) slots.old + sum_by weight gone.old) }
{
    for id in ids {
        remove(slots, gone, alloc, *id as usize)?;
    }
    Ok(())
}

/// A relationship goes if one of its ends doesn't live, and joins those that are gone.
fn remove_if_loose(
    rels: &mut Table<Slot<Rel>>,
    gone: &mut List<Shared<Rel>>,
    alloc: Global,
    nodes: &Table<Slot<Node>>,
    row: usize,
) -> Result<(), Mem>
    ensures removed { OnOk result (rels.new ≡ slice_set rels.old row (kept (ends_live nodes.now) (slot_at rels.old row))) }
    ensures counted { OnOk result ((weight : Rel → ℕ) → sum_by (slot_count weight) rels.new + sum_by weight gone.new
        ≡ sum_by (slot_count weight) rels.old + sum_by weight gone.old) }
{
    let Some(rel) = live_at(rels, row) else {
        return Ok(());
    };
    let source_lives = live_at(nodes, rel.source as usize).is_some();
    let target_lives = live_at(nodes, rel.target as usize).is_some();
    if source_lives && target_lives {
        return Ok(());
    }
    remove(rels, gone, alloc, row)
}

/// The relationships of which an end doesn't live go, and join those that are gone.
fn remove_loose(
    rels: &mut Table<Slot<Rel>>,
    gone: &mut List<Shared<Rel>>,
    alloc: Global,
    nodes: &Table<Slot<Node>>,
) -> Result<(), Mem>
    ensures removed { OnOk result (rels.new ≡ map (kept (ends_live nodes.now)) rels.old) }
    ensures counted { OnOk result ((weight : Rel → ℕ) → sum_by (slot_count weight) rels.new + sum_by weight gone.new
        ≡ sum_by (slot_count weight) rels.old + sum_by weight gone.old) }
{
    for row in 0..rels.len() {
        remove_if_loose(rels, gone, alloc, nodes, row)?;
    }
    Ok(())
}

/// The slots without what lives under the listed ids, and what is gone.
///
/// # Errors
/// `NoSuchEntity` with the first id under which nothing lives, or `Mem`.
pub(crate) fn without<E: Element>(
    slots: &Table<Slot<E>>,
    alloc: Global,
    kind: EntityKind,
    ids: &List<u32>,
) -> Result<(Table<Slot<E>>, List<Shared<E>>), Refusal>
    requires { IsNumbered E.id_of 0 slots.now }
    ensures removed { IfOk result (λ made. made.0 ≡ map (kept (is_unlisted E.id_of ids.now)) slots.now) }
    ensures counted { IfOk result (λ made. WeighsSame slots.now made.0 made.1) }
    ensures found { IfOk result (λ _. find (is_dead slots.now) ids.now ≡ None) }
    ensures refused { IfErr result (λ why. UnlessMem why
        (option_map (Refusal.NoSuchEntity kind) (find (is_dead slots.now) ids.now) ≡ Some why)) }
{
    if let Some(id) = missing_id(slots, ids.as_slice()) {
        return Err(Refusal::NoSuchEntity { kind, id });
    }
    let mut draft = slots.try_clone()?;
    let mut gone = List::new(alloc);
    remove_listed(&mut draft, &mut gone, alloc, ids.as_slice())?;
    Ok((draft, gone))
}

/// The slots without the relationships of which an end doesn't live, and what is gone.
pub(crate) fn without_loose(
    rels: &Table<Slot<Rel>>,
    alloc: Global,
    nodes: &Table<Slot<Node>>,
) -> Result<(Table<Slot<Rel>>, List<Shared<Rel>>), Mem>
    ensures removed { IfOk result (λ made. made.0 ≡ map (kept (ends_live nodes.now)) rels.now) }
    ensures counted { IfOk result (λ made. WeighsSame rels.now made.0 made.1) }
{
    let mut draft = rels.try_clone()?;
    let mut gone = List::new(alloc);
    remove_loose(&mut draft, &mut gone, alloc, nodes)?;
    Ok((draft, gone))
}

/// How many values the elements that are gone had.
pub(crate) fn gone_values<E: Element>(gone: &List<Shared<E>>) -> u64
    requires { sum_by (λ element. length (E.props_of element)) gone.now < 2 ^ 64 }
    ensures { result ≡ sum_by (λ element. length (E.props_of element)) gone.now }
{
    let mut count = 0;
    for element in gone.as_slice() {
        count += element.get().props().len() as u64;
    }
    count
}
