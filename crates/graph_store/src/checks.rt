// What is asked of a change before it is made: that what it names lives, and how many values it makes.
ghost use Rattle.std.specs.Prelude.{◌≡◌, ◌+◌, ◌-◌, ◌^◌, map, min, sum_by};
ghost use Rattle.std.specs.List.{find, flat_map};
ghost use Rattle.graph_model.specs.Change.{named_ends, named_id, pair_id};
ghost use Rattle.graph_store.specs.Missing.{is_dead, new_node_values, new_rel_values};

use graph_model::{NewNode, NewRel, Node, Place};
use store_tables::{Slot, Table, live_at};

/// The first id of a list under which nothing lives.
pub(crate) fn missing_id<E>(slots: &Table<Slot<E>>, ids: &[u32]) -> Option<u32>
    ensures { result ≡ find (is_dead slots.now) ids.now }
{
    for id in ids {
        if live_at(slots, *id as usize).is_none() {
            return Some(*id);
        }
    }
    None
}

/// The first id of pairs under which nothing lives.
pub(crate) fn missing_of_pairs<E>(slots: &Table<Slot<E>>, pairs: &[(u32, i64)]) -> Option<u32>
    ensures { result ≡ find (is_dead slots.now) (map pair_id pairs.now) }
{
    for (id, _) in pairs {
        if live_at(slots, *id as usize).is_none() {
            return Some(*id);
        }
    }
    None
}

/// The id of an end under which no node lives, where the end names an id.
fn missing_place(nodes: &Table<Slot<Node>>, place: Place) -> Option<u32>
    ensures { result ≡ find (is_dead nodes.now) (named_id place) }
{
    match place {
        Place::Old(id) if live_at(nodes, id as usize).is_none() => Some(id),
        _ => None,
    }
}

/// The first id that new relationships name, source before target, under which no node lives.
pub(crate) fn missing_end(nodes: &Table<Slot<Node>>, rels: &[NewRel]) -> Option<u32>
    ensures { result ≡ find (is_dead nodes.now) (flat_map named_ends rels.now) }
{
    for rel in rels {
        let missing = missing_place(nodes, rel.source).or(missing_place(nodes, rel.target));
        if missing.is_some() {
            return missing;
        }
    }
    None
}

/// How many values new elements have, or the greatest u64 where there are more.
pub(crate) fn new_value_count(nodes: &[NewNode], rels: &[NewRel]) -> u64
    ensures { result ≡ min (2 ^ 64 - 1) (sum_by new_node_values nodes.now + sum_by new_rel_values rels.now) }
{
    let mut count = 0u64;
    for node in nodes {
        count = count.saturating_add(node.props.len() as u64);
    }
    for rel in rels {
        count = count.saturating_add(rel.props.len() as u64);
    }
    count
}
