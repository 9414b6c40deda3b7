// Values set by pairs of an id and a value.
ghost use Rattle.std.specs.Prelude.{◌≡◌, ℕ, ◌+◌, ◌*◌, ◌≤◌, List, length, map, slice_set, sum_by, Some, None, IfOk, IfErr};
ghost use Rattle.std.specs.List.{find};
ghost use Rattle.std.specs.Option.{option_map};
ghost use Rattle.std.specs.Ordering.{nat_cmp};
ghost use Rattle.std.specs.BTreeMap.{get};
ghost use Rattle.graph_model.specs.Change.{last_value, pair_id};
ghost use Rattle.graph_model.specs.Refusals.{UnlessMem};
ghost use Rattle.graph_store.specs.Missing.{is_dead};
ghost use Rattle.store_tables.specs.Slots.{IsNumbered, slot_at, slot_count};
ghost use Rattle.graph_store.specs.Edits.{set_by, with_value};
ghost use Rattle.store_tables.specs.Counted.{key_weight};

use crate::checks::missing_of_pairs;
use crate::values::set_prop;
use graph_model::{EntityKind, List, Mem, Name, Refusal, TryClone};
use std::alloc::Global;
use std::collections::BTreeMap;
use store_tables::{Element, Slot, Table, live_at};

/// The value of the last pair of each id.
fn last_values(alloc: Global, pairs: &[(u32, i64)]) -> Result<BTreeMap<u32, i64>, Mem>
    ensures { IfOk result (λ last. (id : ℕ) → get nat_cmp last id ≡ last_value pairs.now id) }
{
    let mut last = BTreeMap::new(alloc);
    for (id, value) in pairs {
        last.insert(*id, *value)?;
    }
    Ok(last)
}

/// Sets a value of what lives under an id, and answers by how many values there are more.
fn set_value<E: Element>(
    slots: &mut Table<Slot<E>>,
    alloc: Global,
    id: u32,
    key: &Name,
    value: i64,
) -> Result<u64, Mem>
    ensures set { IfOk result (λ _. slots.new
        ≡ slice_set slots.old id (option_map (with_value E.props_of E.with_props_of key.now value) (slot_at slots.old id))) }
    ensures added { IfOk result (λ added. (weight : List ℕ → ℕ) → sum_by (slot_count (λ element. key_weight weight (E.props_of element))) slots.new
        ≡ sum_by (slot_count (λ element. key_weight weight (E.props_of element))) slots.old + added * weight key.now) }
    ensures few { IfOk result (λ added. added ≤ 1) }
{
    let Some(element) = live_at(slots, id as usize) else {
        return Ok(0);
    };
    let props = set_prop(alloc, element.props(), key, value)?;
    let added = (props.len() - element.props().len()) as u64;
    let element = element.with_props(props)?;
    slots.set(alloc, id as usize, Slot::of(alloc, element)?)?;
    Ok(added)
}

/// Sets a value of what lives under the id of each pair, and answers by how many values there are more. Of equal ids
/// the last pair counts.
fn set_values<E: Element>(
    slots: &mut Table<Slot<E>>,
    alloc: Global,
    key: &Name,
    pairs: &[(u32, i64)],
) -> Result<u64, Mem>
    requires { IsNumbered E.id_of 0 slots.old }
    ensures set { IfOk result (λ _. slots.new
        ≡ map (option_map (set_by E.id_of E.props_of E.with_props_of key.now pairs.now)) slots.old) }
    ensures added { IfOk result (λ added. (weight : List ℕ → ℕ) → sum_by (slot_count (λ element. key_weight weight (E.props_of element))) slots.new
        ≡ sum_by (slot_count (λ element. key_weight weight (E.props_of element))) slots.old + added * weight key.now) }
{
    let mut last = last_values(alloc, pairs)?;
    let mut added = 0;
    for (id, _) in pairs {
        if let Some(value) = last.remove(id) {
            added += set_value(slots, alloc, *id, key, value)?;
        }
    }
    Ok(added)
}

/// The slots with a value set of what lives under the id of each pair, and how many values there are more.
///
/// # Errors
/// `NoSuchEntity` with the first id under which nothing lives, or `Mem`.
pub(crate) fn with_values<E: Element>(
    slots: &Table<Slot<E>>,
    alloc: Global,
    kind: EntityKind,
    key: &Name,
    pairs: &List<(u32, i64)>,
) -> Result<(Table<Slot<E>>, u64), Refusal>
    requires { IsNumbered E.id_of 0 slots.now }
    ensures set { IfOk result (λ made. made.0
        ≡ map (option_map (set_by E.id_of E.props_of E.with_props_of key.now pairs.now)) slots.now) }
    ensures added { IfOk result (λ made. (weight : List ℕ → ℕ) → sum_by (slot_count (λ element. key_weight weight (E.props_of element))) made.0
        ≡ sum_by (slot_count (λ element. key_weight weight (E.props_of element))) slots.now + made.1 * weight key.now) }
    ensures found { IfOk result (λ _. find (is_dead slots.now) (map pair_id pairs.now) ≡ None) }
    ensures refused { IfErr result (λ why. UnlessMem why
        (option_map (Refusal.NoSuchEntity kind) (find (is_dead slots.now) (map pair_id pairs.now)) ≡ Some why)) }
{
    if let Some(id) = missing_of_pairs(slots, pairs.as_slice()) {
        return Err(Refusal::NoSuchEntity { kind, id });
    }
    let mut draft = slots.try_clone()?;
    let added = set_values(&mut draft, alloc, key, pairs.as_slice())?;
    Ok((draft, added))
}
