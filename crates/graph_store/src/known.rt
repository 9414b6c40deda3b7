// Which labels, types and keys live elements have, told without a look at the elements.
ghost use Rattle.std.specs.Prelude.{◌≡◌};
ghost use Rattle.graph_model.specs.Known.{knows_label, knows_type, knows_node_key, knows_rel_key};

use crate::store::{Snapshot, Store};
use graph_model::Name;

impl Store {
    /// Whether some live node has a label.
    pub fn knows_label(&self, name: &Name) -> bool
        ensures { result ≡ knows_label self.now name.now }
    {
        self.node_names.classes.is_counted(name)
    }

    /// Whether some live relationship is of a type.
    pub fn knows_type(&self, name: &Name) -> bool
        ensures { result ≡ knows_type self.now name.now }
    {
        self.rel_names.classes.is_counted(name)
    }

    /// Whether some live node stores a key.
    pub fn knows_node_key(&self, name: &Name) -> bool
        ensures { result ≡ knows_node_key self.now name.now }
    {
        self.node_names.keys.is_counted(name)
    }

    /// Whether some live relationship stores a key.
    pub fn knows_rel_key(&self, name: &Name) -> bool
        ensures { result ≡ knows_rel_key self.now name.now }
    {
        self.rel_names.keys.is_counted(name)
    }
}

impl Snapshot {
    /// Whether some node has a label.
    pub fn knows_label(&self, name: &Name) -> bool
        ensures { result ≡ knows_label self.now name.now }
    {
        self.store.knows_label(name)
    }

    /// Whether some relationship is of a type.
    pub fn knows_type(&self, name: &Name) -> bool
        ensures { result ≡ knows_type self.now name.now }
    {
        self.store.knows_type(name)
    }

    /// Whether some node stores a key.
    pub fn knows_node_key(&self, name: &Name) -> bool
        ensures { result ≡ knows_node_key self.now name.now }
    {
        self.store.knows_node_key(name)
    }

    /// Whether some relationship stores a key.
    pub fn knows_rel_key(&self, name: &Name) -> bool
        ensures { result ≡ knows_rel_key self.now name.now }
    {
        self.store.knows_rel_key(name)
    }
}
