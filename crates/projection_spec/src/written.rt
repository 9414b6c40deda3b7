// Relationship entries as they are written, before their rules are settled.
use crate::entries::Rule;
use graph_model::{List, Mem, Name, Orientation, TryClone};

/// A key of projected arcs, with its own aggregation or none.
#[derive(Debug, Drop)]
pub(crate) struct WrittenProp {
    pub(crate) key: Name,
    /// The store's key, or none where relationships are counted whatever they store.
    pub(crate) store: Option<Name>,
    pub(crate) default: Option<i64>,
    pub(crate) aggregation: Option<Rule>,
}

impl TryClone for WrittenProp {
    fn try_clone(&self) -> Result<WrittenProp, Mem> {
        let store = match &self.store {
            Some(name) => Some(name.try_clone()?),
            None => None,
        };
        Ok(WrittenProp {
            key: self.key.try_clone()?,
            store,
            default: self.default,
            aggregation: self.aggregation,
        })
    }
}

/// A projected type, with its own aggregation or none.
#[derive(Debug, Drop)]
pub(crate) struct WrittenEntry {
    pub(crate) kind: Name,
    /// The store's type, or none where each relationship is meant.
    pub(crate) store: Option<Name>,
    pub(crate) orientation: Orientation,
    pub(crate) aggregation: Option<Rule>,
    pub(crate) props: List<WrittenProp>,
}
