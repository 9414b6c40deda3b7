// Arcs before and after those between the same nodes are grouped.
ghost use Rattle.std.specs.Prelude.{◌≡◌};
ghost use Rattle.projection_spec.specs.RawArcs.{stored_value, stored_cell};

use graph_model::{List, Name, Prop};

/// An arc that a relationship gives, with a cell for each key of its entry: the value that the relationship stores.
#[derive(Debug, Drop)]
pub struct RawArc {
    pub source: u32,
    pub target: u32,
    pub rel: u32,
    pub cells: List<Option<i64>>,
}

/// An arc that is kept, with a value for each key of its entry. `rel` is the least relationship id of its group.
#[derive(Debug, Drop)]
pub struct Grouped {
    pub source: u32,
    pub target: u32,
    pub rel: u32,
    pub values: List<i64>,
}

/// The value that stands under a key among stored values.
pub fn stored_value(props: &[Prop], key: &Name) -> Option<i64>
    ensures { result ≡ stored_value props.now key.now }
{
    match props.iter().find(|prop| *key == prop.key) {
        Some(prop) => Some(prop.value),
        None => None,
    }
}

/// The cell of a key of the store among stored values: none where there is no such key.
pub fn stored_cell(props: &[Prop], key: &Option<Name>) -> Option<i64>
    ensures { result ≡ stored_cell props.now key.now }
{
    match key {
        Some(key) => stored_value(props, key),
        None => None,
    }
}
